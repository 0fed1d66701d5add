ghost use Rattle.std.specs.Prelude.{◌≡◌};
ghost use Rattle.machine_defs.specs.Auditing.{fault_name};
ghost use Rattle.list_text.specs.Meanings.{meaning};
ghost use Rattle.list_text.specs.declared.fault.ListFault.TheVariants.{NoMemory};

use std::alloc::{AllocError, AllocFailed};
use thiserror::Error;

/// What is wrong with a line of a listing.
#[derive(Clone, Copy, Debug, PartialEq, Eq, Error)]
pub enum ListWhat {
    /// The line has not the form of its place, is missing, has no line feed, or follows `end`.
    #[error("the line has not the form of its place, is missing, has no line feed, or follows `end`")]
    Form,
    /// The line's dart or dimension is not greater than that of the line before, or its name stood before.
    #[error("the line's dart or dimension is not greater than that of the line before, or its name stood before")]
    Order,
    /// A law of maps fails at the row's dart.
    #[error("a law of maps fails at the row's dart")]
    Laws,
    /// The line's dimension is above the map's or has no rule, or its dart has no row or is not the least of its cell.
    #[error("the line's dimension is above the map's or has no rule, or its dart has no row or is not the least of its cell")]
    Values,
}

impl ListWhat {
    /// The fault's name, as the program writes it.
    pub fn name(self) -> &'static str
        ensures { result.now ≡ fault_name (meaning self) }
    {
        match self {
            ListWhat::Form => "Form",
            ListWhat::Order => "Order",
            ListWhat::Laws => "Laws",
            ListWhat::Values => "Values",
        }
    }
}

/// Why a listing is not read.
#[derive(Clone, Copy, Debug, PartialEq, Eq, Error)]
pub enum ListFault {
    /// The text has this fault first. Lines count from 1; a missing line is the one behind the last.
    #[error("line {line}: {what}")]
    Bad { line: u32, what: ListWhat },
    /// There is no memory for the listing.
    #[error("out of memory")]
    NoMemory,
}

impl From<AllocError> for ListFault {
    ghost from_gives = { λ _ fault. fault ≡ NoMemory };

    fn from(_error: AllocError) -> ListFault {
        ListFault::NoMemory
    }
}

impl<T: Drop> From<AllocFailed<T>> for ListFault {
    ghost from_gives = { λ _ fault. fault ≡ NoMemory };

    fn from(_error: AllocFailed<T>) -> ListFault {
        ListFault::NoMemory
    }
}
