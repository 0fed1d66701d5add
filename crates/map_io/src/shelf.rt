//! Where files are fetched from.
ghost use Rattle.std.specs.Prelude.{◌≡◌, ℕ, ◌-◌, ◌^◌, ◌<◌, ◌↔◌, List, Option, IsErrOf};
ghost use Rattle.machine_defs.specs.Outside.{Files};
ghost use Rattle.map_io.specs.Fetched.{IsFetched};
ghost use Rattle.map_io.specs.Cause.{HasCause};

use std::alloc::Global;
use thiserror::Error;

/// Why a fetch gave no file.
#[derive(Clone, Copy, Debug, PartialEq, Eq, Error)]
pub enum FetchFault {
    /// The shelf has no such file, or could not read it.
    #[error("the file cannot be read")]
    Failed,
    /// The file is longer than the limit of the fetch: so many of its bytes were seen, at least one more than the
    /// limit.
    #[error("the file is too long: it has {seen} bytes or more")]
    TooLong { seen: u64 },
    /// There is no memory for the bytes of the file.
    #[error("out of memory")]
    NoMemory,
}

/// Something that holds files by name.
///
/// A name is any text; what names there are is the shelf's own affair.
pub trait Shelf {
    /// The files that the shelf holds, if it tells them.
    ghost holds: { Self → Option Files };

    /// How many faults there were so far. The count never falls, and may stop at the last number of 64 bits.
    ghost faults: { Self → ℕ };

    /// The names that a caller may ask for.
    ghost may_ask: { Self → List ℕ → Type 0 };

    /// The bytes of the file of this name, if there are at most `limit` of them.
    ///
    /// Errors: [`FetchFault::TooLong`] only if the file is longer than the limit. [`FetchFault::Failed`] if the shelf
    /// has no such file or cannot read it, and only together with a fault that is counted. [`FetchFault::NoMemory`]
    /// if there is no room for the bytes.
    fn fetch(&mut self, alloc: Global, name: &str, limit: u64) -> Result<Vec<u8>, FetchFault>
        requires asked { may_ask self.old name.now }
        requires bounded { limit < 2 ^ 64 - 1 }
        ensures bytes { IsFetched (holds self.old) name.now limit result }
        ensures same { holds self.new ≡ holds self.old }
        ensures kept { (other : List ℕ) → may_ask self.old other ↔ may_ask self.new other }
        ensures cause { HasCause (faults self.old) (faults self.new)
            (IsErrOf result FetchFault.Failed) };
}
