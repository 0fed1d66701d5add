//! Tests of the crates below the map that tell of its links: rows, walks, edits, duals and halves. They stand apart, since a
//! crate with tests is proved twice.
#![tactic(auto)]

#[cfg(test)]
mod alpha_edit_tests;
#[cfg(test)]
mod beta_ending_tests;
#[cfg(test)]
mod beta_insertion_tests;
#[cfg(test)]
mod beta_maps;
#[cfg(test)]
mod cell_walk_tests;
#[cfg(test)]
mod dart_arena_tests;
#[cfg(test)]
mod double_tests;
#[cfg(test)]
mod dual_map_tests;
#[cfg(test)]
mod face_center_tests;
#[cfg(test)]
mod half_tests;
#[cfg(test)]
mod kind_edit_tests;
#[cfg(test)]
mod link_rows_tests;
#[cfg(test)]
mod map_close_tests;
#[cfg(test)]
mod maps;
#[cfg(test)]
mod orient_tests;
#[cfg(test)]
mod sewing_tests;
