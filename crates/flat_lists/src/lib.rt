//! Lists of lists that lie in one: a short list takes no memory of its own.
#![tactic(auto)]

mod lists;

pub use lists::Lists;
