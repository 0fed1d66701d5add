ghost use Rattle.std.specs.Prelude.{◌≡◌, ◌+◌, ◌-◌, ◌<◌, ◌^◌, min, max, length};
ghost use Rattle.map_defs.specs.MeshMap.{side_at};
ghost use Rattle.mesh_build.specs.Sides.{side_view};

use link_rows::{next_side, previous_side};

/// A side of a face: its number among all sides, the points from which and to which it leads, and the numbers of the sides
/// behind it and before it in its face.
#[derive(Clone, Copy)]
pub struct Side {
    pub number: u32,
    pub from: u32,
    pub to: u32,
    pub next: u32,
    pub previous: u32,
}

impl Side {
    /// The side at a place of a face, whose sides are numbered on from `base`.
    pub fn new(base: u32, corners: &[u32], place: u32) -> Self
        requires within { place < length corners.now }
        requires few { base + length corners.now < 2 ^ 32 }
        ensures { side_view result ≡ side_at base corners.now place }
    {
        let sides = corners.len() as u32;
        let after = next_side(sides, place);
        Side {
            number: base + place,
            from: corners[place as usize],
            to: corners[after as usize],
            next: base + after,
            previous: base + previous_side(sides, place),
        }
    }

    /// The two points of the side, the lower one first.
    pub fn points(&self) -> (u32, u32)
        ensures { result ≡ (min self.now.from self.now.to, max self.now.from self.now.to) }
    {
        (self.from.min(self.to), self.from.max(self.to))
    }
}
