//! The map that obeys the lines of a script, one call a line.
//!
//! Each call does what the plain map machine does for its line: it gives the same answer, it is refused exactly where
//! the machine refuses the line and with the same refusal, and it leaves the same state. Only want of memory is the
//! call's own, and it leaves the state as it was. The numbers that calls take are those of a script: any u64; as a dart, 0
//! and whatever else names no live dart is refused.
#![tactic(auto)]

mod change;
mod dual;
mod hang;
mod insert;
mod list;
mod load;
mod make;
mod map;
mod mark;
mod note;
mod question;
mod remove;
mod sew;
mod undo;
mod value;

pub use kind_edit::{Edits, LinkStore, Plans};
pub use map::Map;
pub use map_kind::Done;
pub use undo_journal::{RuleChange, Step, ValueChange};
