ghost use Rattle.std.specs.Prelude.{◌≡◌};
ghost use Rattle.map_defs.specs.Refusal as machine;
ghost use Rattle.map_kind.specs.Refusals.{meaning};
ghost use Rattle.map_kind.specs.declared.refusal.Refused.TheVariants.{Line, NoMemory};

use std::alloc::{AllocError, AllocFailed};
use thiserror::Error;

/// Why a line of a script is refused. A line is refused with the least number whose condition holds.
#[derive(Clone, Copy, Debug, PartialEq, Eq, Error)]
pub enum Refusal {
    /// The line is not in the grammar.
    #[error("the line is not in the grammar")]
    Syntax,
    /// A dimension or link number is above the map's dimension, or is none that the line can take.
    #[error("a dimension or link number is above the map's dimension, or is none that the line can take")]
    BadDim,
    /// A named dart is not live.
    #[error("a named dart is not live")]
    NoDart,
    /// The dimension has no rule, or a name of a rule is in no table.
    #[error("the dimension has no rule, or a name of a rule is in no table")]
    NoRule,
    /// A dart to be sewn is not free.
    #[error("a dart to be sewn is not free")]
    NotFree,
    /// The orbits of the two darts do not fit together.
    #[error("the orbits of the two darts do not fit together")]
    Unsewable,
    /// The dart to be unsewn is free.
    #[error("the dart to be unsewn is free")]
    AlreadyFree,
    /// The darts do not lie in the same cell.
    #[error("the darts do not lie in the same cell")]
    OtherCell,
    /// The two darts lie in the same corner.
    #[error("the two darts lie in the same corner")]
    SameCorner,
    /// A path or a face is not closed.
    #[error("a path or a face is not closed")]
    NotClosed,
    /// The darts cannot be paired along a cut.
    #[error("the darts cannot be paired along a cut")]
    Unpaired,
    /// The cell cannot be removed.
    #[error("the cell cannot be removed")]
    NotRemovable,
    /// The cell cannot be contracted.
    #[error("the cell cannot be contracted")]
    NotContractible,
    /// The map has free links, or would be joined to itself.
    #[error("the map has free links, or would be joined to itself")]
    Boundary,
    /// Some link of the dart is not free.
    #[error("some link of the dart is not free")]
    Linked,
    /// A count is out of its range.
    #[error("a count is out of its range")]
    BadCount,
    /// A mark of that name stands.
    #[error("a mark of that name stands")]
    MarkTaken,
    /// No mark of that name stands.
    #[error("no mark of that name stands")]
    NoMark,
    /// A vertex has no value.
    #[error("a vertex has no value")]
    NoPoint,
    /// A face has fewer than three sides.
    #[error("a face has fewer than three sides")]
    ThinFace,
    /// More darts would be made than are ever made.
    #[error("more darts would be made than are ever made")]
    Full,
    /// No undo stands that can be taken back, or the last one went back to another mark.
    #[error("no undo to that mark is the last that can be taken back")]
    NoRedo,
}

impl Refusal {
    /// The refusal's number, from 1: refusals are looked at in the order of their numbers.
    pub fn number(self) -> u32
        ensures { result ≡ machine.number (meaning self) }
    {
        match self {
            Refusal::Syntax => 1,
            Refusal::BadDim => 2,
            Refusal::NoDart => 3,
            Refusal::NoRule => 4,
            Refusal::NotFree => 5,
            Refusal::Unsewable => 6,
            Refusal::AlreadyFree => 7,
            Refusal::OtherCell => 8,
            Refusal::SameCorner => 9,
            Refusal::NotClosed => 10,
            Refusal::Unpaired => 11,
            Refusal::NotRemovable => 12,
            Refusal::NotContractible => 13,
            Refusal::Boundary => 14,
            Refusal::Linked => 15,
            Refusal::BadCount => 16,
            Refusal::MarkTaken => 17,
            Refusal::NoMark => 18,
            Refusal::NoPoint => 19,
            Refusal::ThinFace => 20,
            Refusal::Full => 21,
            Refusal::NoRedo => 22,
        }
    }

    /// The refusal's name, as replies write it.
    pub fn name(self) -> &'static str
        ensures { result.now ≡ machine.name (meaning self) }
    {
        match self {
            Refusal::Syntax => "Syntax",
            Refusal::BadDim => "BadDim",
            Refusal::NoDart => "NoDart",
            Refusal::NoRule => "NoRule",
            Refusal::NotFree => "NotFree",
            Refusal::Unsewable => "Unsewable",
            Refusal::AlreadyFree => "AlreadyFree",
            Refusal::OtherCell => "OtherCell",
            Refusal::SameCorner => "SameCorner",
            Refusal::NotClosed => "NotClosed",
            Refusal::Unpaired => "Unpaired",
            Refusal::NotRemovable => "NotRemovable",
            Refusal::NotContractible => "NotContractible",
            Refusal::Boundary => "Boundary",
            Refusal::Linked => "Linked",
            Refusal::BadCount => "BadCount",
            Refusal::MarkTaken => "MarkTaken",
            Refusal::NoMark => "NoMark",
            Refusal::NoPoint => "NoPoint",
            Refusal::ThinFace => "ThinFace",
            Refusal::Full => "Full",
            Refusal::NoRedo => "NoRedo",
        }
    }
}

/// Why a call was refused: as a line of a script, or for want of memory, which has no number among the refusals.
#[derive(Clone, Copy, Debug, PartialEq, Eq, Error)]
pub enum Refused {
    /// The line is refused.
    #[error("{0}")]
    Line(Refusal),
    /// There is no memory.
    #[error("out of memory")]
    NoMemory,
}

impl From<Refusal> for Refused {
    ghost from_gives = { λ refusal refused. refused ≡ Line refusal };

    fn from(refusal: Refusal) -> Refused {
        Refused::Line(refusal)
    }
}

impl From<AllocError> for Refused {
    ghost from_gives = { λ _ refused. refused ≡ NoMemory };

    fn from(_error: AllocError) -> Refused {
        Refused::NoMemory
    }
}

impl<T: Drop> From<AllocFailed<T>> for Refused {
    ghost from_gives = { λ _ refused. refused ≡ NoMemory };

    fn from(_error: AllocFailed<T>) -> Refused {
        Refused::NoMemory
    }
}
