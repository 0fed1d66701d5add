//! The links of a map, kept as rows of plain numbers, and edits of them.
#![tactic(auto)]

mod born;
mod builder;
mod dual;
mod edit;
mod links;
mod polygon;
mod steps;

pub use born::BornRows;
pub use builder::LinkBuilder;
pub use dart_arena::{MADE_MAX, ReserveFault, Row};
pub use edit::{Change, Edit, PlainEdit};
pub use links::Links;
pub use polygon::{SIDES_MAX, next_side, polygon_edit, previous_side};
