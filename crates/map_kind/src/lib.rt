//! The words that every layer of the kernel shares: darts, kinds of map, values and refusals.
#![tactic(auto)]

mod beta;
mod dart;
mod done;
mod kind;
mod limits;
mod refusal;
mod value;
mod word;

pub use beta::Beta;
pub use dart::Dart;
pub use done::Done;
pub use kind::{Alpha, Kind, is_generalized};
pub use limits::PATH_MAX;
pub use refusal::{Refusal, Refused};
pub use value::{Place, Value};
pub use word::LinkWord;
