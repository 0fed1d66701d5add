//! Dimensions whose cells an edit keeps.
ghost use Rattle.std.specs.Prelude.{◌↔◌, IsTrue};
ghost use Rattle.valued_map.specs.Keeping.{IsKept};

/// Dimensions whose cells an edit keeps, from one number up to another, without it: two of the darts that lived before lie in
/// one cell of such a dimension exactly where they lay in one before. Darts that are born may have joined the cells, or lie in
/// cells of their own. In these dimensions no dart that lived before needs a look.
#[derive(Clone, Copy, Debug, PartialEq, Eq)]
pub struct Kept {
    /// The first of them.
    pub from: usize,
    /// The one behind the last.
    pub to: usize,
    /// How many of the darts that are born lie aside there, the last ones: in cells in which no dart lies that lived before. They
    /// have no ids.
    pub aside: u32,
}

impl Kept {
    /// No dimension: nothing is known of the cells.
    pub const NONE: Kept = Kept {
        from: 0,
        to: 0,
        aside: 0,
    };

    /// That of the vertices.
    pub const VERTICES: Kept = Kept {
        from: 0,
        to: 1,
        aside: 0,
    };

    /// That of the faces, and all above: 8 is the greatest.
    pub const FACES_AND_ABOVE: Kept = Kept {
        from: 2,
        to: 9,
        aside: 0,
    };

    /// Whether the cells of a dimension are kept.
    pub(crate) fn has(self, dim: usize) -> bool
        ensures { IsTrue result ↔ IsKept self dim }
    {
        self.from <= dim && dim < self.to
    }
}
