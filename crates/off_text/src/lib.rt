//! Meshes, and their text in the OFF format: read, and written from a map.
#![tactic(auto)]

mod cursor;
mod faces;
mod fault;
mod line;
mod mesh;
mod number;
mod of_map;
mod points;
mod read;
mod round;
mod rows;
mod write;

pub use fault::{OffFault, OffWhat};
pub use line::OffLine;
pub use mesh::Mesh;
pub use of_map::{OffRows, off_of};
pub use read::{CORNERS_MAX, TEXT_MAX, read_off};
pub use write::{put_off, write_off};
