//! The tally of lines.
ghost use Rattle.std.specs.Prelude.{◌≡◌, ◌≤◌};

use crate::squares::SQUARES_MAX;

/// So many lines are counted at most.
pub(crate) const LINES_MAX: u64 = 4 * SQUARES_MAX as u64 + 1;

/// How many lines there were, and how many of them were accepted.
#[derive(Clone, Copy, Debug, PartialEq, Eq)]
pub(crate) struct Tally {
    pub(crate) lines: u64,
    pub(crate) accepted: u64,
    ghost fewer: { accepted ≤ lines },
}

impl Tally {
    /// No line was counted.
    pub(crate) fn new() -> Self
        ensures lines { result.lines ≡ 0 }
        ensures accepted { result.accepted ≡ 0 }
    {
        Tally {
            lines: 0,
            accepted: 0,
        }
    }
}
