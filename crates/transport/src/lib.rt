//! The values of cells, carried along where a change of links splits and merges them.
#![tactic(auto)]

mod by_id;
mod carrying;
mod group;
mod laws;
mod marks;
mod merging;
mod pieces;
mod tally;
mod touched;
mod wanted;

pub use carrying::carry;
pub use group::{Group, RuleRow, TouchedDarts};
pub use laws::groups_carry_the_whole_map;
pub use touched::touched_cells;
