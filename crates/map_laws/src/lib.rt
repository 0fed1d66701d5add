//! Laws of lines, as calls of a map: of a line and the one that undoes it, and of what the values of a dimension add up to.
//!
//! Each call of two lines has the map obey both. Its clauses say that the second line is refused nowhere, where the first was
//! obeyed, and that all links are back then: whatever the map, its kind and its dimension, with no more conditions than those
//! of the first line. So they are laws that a test can call, and a caller who wants to see a law at work on a map of its own.
#![tactic(auto)]

mod dual;
mod fault;
mod insert;
mod sew;
#[cfg(test)]
mod tests;
mod totals;

pub use dual::dual_twice;
pub use fault::LawFault;
pub use insert::{Insertion, insert_then_remove};
pub use sew::sew_then_unsew;
pub use totals::{Total, calls_keep_totals, total_of};
