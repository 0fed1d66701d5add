//! Signs of the darts of a generalized map, its oriented half, and the double of a combinatorial map.
#![tactic(auto)]

mod boundary;
mod builder;
mod doubling;
mod fault;
mod halving;
mod laws;
mod orienting;
mod ranks;
mod search;
mod sign;
mod walk;

pub use doubling::{DoubleMap, double};
pub use fault::{OrientFault, Walk};
pub use halving::{HalfMap, half};
pub use laws::first_odd_walk_starts_at_a_least_dart;
pub use orienting::orient;
pub use sign::Sign;
