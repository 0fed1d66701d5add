//! Listings: the text that tells a whole map, its darts, links and values.
#![tactic(auto)]

mod again;
mod cells;
mod counts;
mod cursor;
mod cut;
mod fault;
mod form;
mod judge;
mod laws;
mod line;
mod lines;
mod links;
mod listing;
mod name;
mod names;
mod read;
mod rows;
mod table;
mod told;
mod values;
mod words;
mod write;

pub use again::written_again;
pub use counts::listing_counts;
pub use fault::{ListFault, ListWhat};
pub use line::ListLine;
pub use links::listing_links;
pub use listing::{ListRow, ListRule, ListValue, Listing};
pub use name::MarkName;
pub use read::{LISTING_MAX, read_listing};
pub use rows::list_rows;
pub use write::{put_listing, write_listing};
