//! Why a line and the one that undoes it were not both obeyed.
use map_kind::Refused;
use thiserror::Error;

/// Why a line and the one that undoes it were not both obeyed. There is no refusal of the second line: that is the law.
#[derive(Clone, Copy, Debug, PartialEq, Eq, Error)]
pub enum LawFault {
    /// The first line was refused, or memory was wanting for it: the map is as it was.
    #[error("the first line was refused: {0}")]
    First(Refused),
    /// Memory was wanting for the second line: the map is as the first line left it.
    #[error("memory was wanting for the second line")]
    SecondNoMemory,
}
