//! Pairs of darts that links are to join, and the edits that sew two darts and unsew one, in maps of both kinds and every
//! dimension.
#![tactic(auto)]

mod book;
mod near;
mod pairing;
mod pairs;
mod plans;
mod triple;

pub use pairing::{PairFault, pair};
pub use plans::{sew_plan, sewable, unsew_plan};
pub use triple::Triple;
