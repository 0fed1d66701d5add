//! Orbits, cells and components of a map, found by walking along its links.
#![tactic(auto)]

mod around;
mod edges;
mod found;
mod marks;
mod one_cell;
mod orbits;
mod rings;
mod rounds;
mod search;
mod seen;
mod spread;
mod surface;
mod sweep;
mod ways;
mod whole_map;

pub use around::CellWalk;
pub use one_cell::{cell, cells_of, least, same};
pub use orbits::{follow, orbit, orbits_of};
pub use search::reaches;
pub use surface::surface_words;
pub use whole_map::{CellLists, cell_lists, cells, components, counts};
