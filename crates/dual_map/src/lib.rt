//! The dual of a map: whether a map has one, and how it is made, in place or by an edit, in maps of both kinds and every
//! dimension.
#![tactic(auto)]

mod boundary;
pub mod combinatorial;
mod entries;
pub mod generalized;
mod plan;

pub use boundary::dualable;
pub use plan::dual_plan;
