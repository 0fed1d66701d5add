ghost use Rattle.std.specs.Prelude.{◌≡◌, Bool, ◌&&◌, ◌==◌, ◌+◌, ◌<◌, [], ◌∷◌, ◌++◌, filter, IfOk, IfErr, OnOk, vec_len};
ghost use Rattle.map_defs.specs.MeshMap.{side_fault, has_ends};
ghost use Rattle.mesh_build.specs.Sides.{side_view, sides_view, Fails};
ghost use Rattle.mesh_laws.specs.Sides.{kind_of};
ghost use Rattle.mesh_build.specs.Books.{KeepsBook};

use crate::MeshFault;
use crate::side::Side;
use std::alloc::{AllocError, Global};
use std::collections::HashMap;

/// The sides so far, and which of them are sewn.
#[derive(Drop)]
pub struct Book {
    /// The last side between two points.
    last: HashMap<(u32, u32), u32>,
    pub sides: Vec<Side>,
    /// The side that each side is sewn to, if it is sewn.
    pub partners: Vec<Option<u32>>,
}

impl Book {
    /// A book without sides, with room for so many. In a closed mesh each two points that have a side between them have
    /// two.
    pub fn with_capacity(alloc: Global, sides: usize) -> Result<Self, AllocError>
        ensures kept { IfOk result (λ book. (o : Bool) → KeepsBook o book) }
        ensures sides { IfOk result (λ book. book.sides.items ≡ []) }
    {
        Ok(Book {
            last: HashMap::with_capacity(alloc, sides / 2)?,
            sides: Vec::with_capacity(alloc, sides)?,
            partners: Vec::with_capacity(alloc, sides)?,
        })
    }

    /// Adds a side of a face, and sews it to the side with the same two points, if there is one.
    pub fn add(&mut self, oriented: bool, face: u32, side: Side) -> Result<(), MeshFault>
        requires kept { KeepsBook oriented self.old }
        requires number { side.number ≡ vec_len self.old.sides }
        ensures ok { OnOk result (KeepsBook oriented self.new) }
        ensures sides { OnOk result (sides_view self.new.sides ≡ sides_view self.old.sides ++ side_view side ∷ []) }
        ensures fault { Fails result (side_fault (kind_of oriented) face (side_view side) (filter (has_ends (side_view side)) (sides_view self.old.sides))) }
    {
        match self.last.insert(side.points(), side.number)? {
            None => self.put(side, None),
            Some(other) => {
                if self.partners[other as usize].is_some() {
                    return Err(MeshFault::ThreeSides { face });
                }
                if turns(oriented, self.sides[other as usize].from, side.from) {
                    return Err(MeshFault::Turned { face });
                }
                self.partners[other as usize] = Some(side.number);
                self.put(side, Some(other))
            }
        }
    }

    /// Puts a side and its partner behind the others.
    fn put(&mut self, side: Side, partner: Option<u32>) -> Result<(), MeshFault>
        ensures last { self.new.last ≡ self.old.last }
        ensures sides { OnOk result (self.new.sides.items ≡ self.old.sides.items ++ side ∷ []) }
        ensures partners { OnOk result (self.new.partners.items ≡ self.old.partners.items ++ partner ∷ []) }
        ensures err { IfErr result (λ fault. fault ≡ MeshFault.NoMemory) }
    {
        self.sides.push(side)?;
        self.partners.push(partner)?;
        Ok(())
    }
}

/// Whether two sides with the same two points lead the same way in an oriented map.
fn turns(oriented: bool, from: u32, other: u32) -> bool
    ensures { result ≡ (oriented && (from == other)) }
{
    oriented && from == other
}
