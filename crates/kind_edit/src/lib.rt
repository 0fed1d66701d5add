//! The edits of both kinds of map behind one trait, so that what is built on them is written once for both kinds.
//!
//! A kind of map implements `Plans` for its links of each dimension, and `Edits` says that it does so.
#![tactic(auto)]

mod combinatorial;
mod generalized;
mod plans;
mod store;

pub use plans::{Edits, Plans};
pub use store::LinkStore;
