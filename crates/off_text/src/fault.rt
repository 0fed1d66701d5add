ghost use Rattle.std.specs.Prelude.{◌≡◌};
ghost use Rattle.map_defs.specs.Off.{name};
ghost use Rattle.off_text.specs.Meanings.{meaning};
ghost use Rattle.off_text.specs.declared.fault.OffFault.TheVariants.{NoMemory};

use std::alloc::{AllocError, AllocFailed};
use thiserror::Error;

/// What is wrong with a line of an OFF text.
#[derive(Clone, Copy, Debug, PartialEq, Eq, Error)]
pub enum OffWhat {
    /// The first word of the text is not `OFF`, or there is none.
    #[error("the first word of the text is not `OFF`, or there is none")]
    NoHeader,
    /// The words behind `OFF`, or else those of the next line that has words, are not three natural numbers below 2^32.
    #[error("the words behind `OFF`, or else those of the next line that has words, are not three natural numbers below 2^32")]
    BadCounts,
    /// The text ends too early, or the line has too few words.
    #[error("the text ends too early, or the line has too few words")]
    Short,
    /// A word of a point is no whole number.
    #[error("a word of a point is no whole number")]
    NotInteger,
    /// A coordinate is out of the range of 64 bits.
    #[error("a coordinate is out of the range of 64 bits")]
    OutOfRange,
    /// A face does not begin with a natural number from 3 to 65,536.
    #[error("a face does not begin with a natural number from 3 to 65,536")]
    BadFace,
    /// A corner of a face is not the place of a point.
    #[error("a corner of a face is not the place of a point")]
    BadIndex,
    /// A point has more than three words, or a line with words follows the last face.
    #[error("a point has more than three words, or a line with words follows the last face")]
    Extra,
    /// A byte outside a comment is no printed character of ASCII, space, tab or carriage return.
    #[error("a byte outside a comment is no printed character of ASCII, space, tab or carriage return")]
    NotText,
}

impl OffWhat {
    /// The fault's name, as replies write it.
    pub fn name(self) -> &'static str
        ensures { result.now ≡ name (meaning self) }
    {
        match self {
            OffWhat::NoHeader => "NoHeader",
            OffWhat::BadCounts => "BadCounts",
            OffWhat::Short => "Short",
            OffWhat::NotInteger => "NotInteger",
            OffWhat::OutOfRange => "OutOfRange",
            OffWhat::BadFace => "BadFace",
            OffWhat::BadIndex => "BadIndex",
            OffWhat::Extra => "Extra",
            OffWhat::NotText => "NotText",
        }
    }
}

/// Why an OFF text is not read.
#[derive(Clone, Copy, Debug, PartialEq, Eq, Error)]
pub enum OffFault {
    /// The text has this fault first. Lines count from 1, blank ones and comments among them; where the text ends too
    /// early, the line is the one behind its last.
    #[error("line {line}: {what}")]
    Bad { line: u32, what: OffWhat },
    /// There is no memory for the mesh.
    #[error("out of memory")]
    NoMemory,
}

impl From<AllocError> for OffFault {
    ghost from_gives = { λ _ fault. fault ≡ NoMemory };

    fn from(_error: AllocError) -> OffFault {
        OffFault::NoMemory
    }
}

impl<T: Drop> From<AllocFailed<T>> for OffFault {
    ghost from_gives = { λ _ fault. fault ≡ NoMemory };

    fn from(_error: AllocFailed<T>) -> OffFault {
        OffFault::NoMemory
    }
}
