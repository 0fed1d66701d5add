//! Where text is put.
ghost use Rattle.std.specs.Prelude.{◌≡◌, ◌≢◌, ℕ, List, [], Option, OnOk, IsErrOf};
ghost use Rattle.machine_defs.specs.Outside.{Appended};
ghost use Rattle.map_io.specs.Put.{IsPut};
ghost use Rattle.map_io.specs.Cause.{HasCause};

use thiserror::Error;

/// Why a piece of text was not put, or not handed on.
#[derive(Clone, Copy, Debug, PartialEq, Eq, Error)]
pub enum PutFault {
    /// The sink could not take all of the piece.
    #[error("the text cannot be written")]
    Failed,
    /// There is no memory to take the piece.
    #[error("out of memory")]
    NoMemory,
}

/// Something that takes text, piece by piece.
///
/// A sink may keep text back for a while: [`flush`](Sink::flush) hands it on.
pub trait Sink {
    /// The text that the sink has taken so far, if it tells it.
    ghost written: { Self → Option (List ℕ) };

    /// The text that the sink has taken and not handed on yet. It is always told.
    ghost kept_back: { Self → List ℕ };

    /// How many faults there were so far. The count never falls, and may stop at the last number of 64 bits.
    ghost faults: { Self → ℕ };

    /// Appends a piece to the text.
    ///
    /// Errors: [`PutFault::Failed`] only together with a fault that is counted, and then some front of the piece was
    /// appended. [`PutFault::NoMemory`], and then nothing was appended.
    fn put(&mut self, piece: &[u8]) -> Result<(), PutFault>
        // `text` is what was appended
        ensures appended { (text : List ℕ) × Appended (written self.old) (written self.new) text
            × IsPut piece.now result text }
        ensures cause { HasCause (faults self.old) (faults self.new) (IsErrOf result PutFault.Failed) };

    /// Hands on the text that the sink kept back, and appends nothing.
    ///
    /// Errors: [`PutFault::Failed`] only together with a fault that is counted. Never [`PutFault::NoMemory`].
    fn flush(&mut self) -> Result<(), PutFault>
        ensures nothing { Appended (written self.old) (written self.new) [] }
        // where it succeeds, nothing is kept back
        ensures handed_on { OnOk result (kept_back self.new ≡ []) }
        ensures needs_no_memory { result ≢ Err PutFault.NoMemory }
        ensures cause { HasCause (faults self.old) (faults self.new) (IsErrOf result PutFault.Failed) };
}
