//! A hook with further rules under names: a list of boxed rules over another hook.
#![tactic(auto)]

mod book;
mod boxed;
mod named;

pub use book::{Book, BookFault, BookWhat};
pub use boxed::Kept;
pub use named::{Named, Span, Xor};
