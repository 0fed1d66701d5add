//! Rows under dart numbers: a dart's number rises with each birth, and is used again only after the birth is taken
//! back.
#![tactic(auto)]

mod arena;
mod gather;
mod places;
mod row;
mod slots;

pub use arena::{Arena, DIM_MAX, MADE_MAX, ReserveFault};
pub use row::Row;
