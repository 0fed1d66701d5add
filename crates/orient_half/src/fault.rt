ghost use Rattle.std.specs.Prelude.{◌≡◌};
ghost use Rattle.orient_half.specs.declared.fault.OrientFault.TheVariants.{NoMemory};

use map_kind::Dart;
use std::alloc::{AllocError, AllocFailed};
use thiserror::Error;

/// A walk along links, from a dart: the first of the links leads from there to another dart, the next on from that one, and
/// so on.
#[derive(Debug, PartialEq, Eq, Drop)]
pub struct Walk {
    pub start: Dart,
    pub links: Vec<usize>,
}

/// Why a generalized map has no oriented half. Each is told only of a map that has none of those before it.
#[derive(Debug, PartialEq, Eq, Drop, Error)]
pub enum OrientFault {
    /// Some link of a dart is free.
    #[error("some link of a dart is free")]
    Boundary,
    /// The link of the dart, from 2 upwards, leads where link 0 leads. It is the least such dart, and its least such link.
    #[error("link {link} of dart {} leads where link 0 leads", .dart.number())]
    Folded { dart: Dart, link: usize },
    /// The walk leads back to its start and has an odd number of links, so no signs are flipped by each link. Its start is
    /// the least dart of its component, and no component before that one has such a walk.
    #[error("an odd number of links leads from dart {} back to it", .0.start.number())]
    Odd(Walk),
    /// There is no memory.
    #[error("out of memory")]
    NoMemory,
}

impl From<AllocError> for OrientFault {
    ghost from_gives = { λ _ fault. fault ≡ NoMemory };

    fn from(_error: AllocError) -> OrientFault {
        OrientFault::NoMemory
    }
}

impl<T: Drop> From<AllocFailed<T>> for OrientFault {
    ghost from_gives = { λ _ fault. fault ≡ NoMemory };

    fn from(_error: AllocFailed<T>) -> OrientFault {
        OrientFault::NoMemory
    }
}
