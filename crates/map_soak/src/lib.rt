//! The lines that a generator of numbers makes, obeyed by a map: squares that are sewn to each other, valued and changed; and
//! the summary of them.
#![tactic(auto)]

mod count;
mod draws;
mod square;
mod squares;
mod tally;
#[cfg(test)]
mod tests;

pub use squares::{SQUARES_MAX, Summary, soak};
