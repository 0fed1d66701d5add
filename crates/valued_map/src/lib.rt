//! The links of a map with the values of its cells and the rules by which these are carried, and all that changes them
//! together.
//!
//! Nothing is known here of the lines of a script, nor of where marks stand: a listing is handed their names. A change answers what it changed where it is asked for, as
//! the step that a log shows, and steps can be taken back and put forward.
#![tactic(auto)]

mod carrying;
mod change;
mod changed;
mod dual;
mod ids;
mod kept;
mod list;
mod load;
mod map;
mod near;
mod off;
mod passing;
mod restore;
mod restored_cells;
mod rules;
mod same;
mod settled;
mod told;
mod touched;
mod value;
mod way;

pub use kept::Kept;
pub use map::ValuedMap;
