//! Tests of the crates below the map that tell of values, names, the journal, files and texts. They stand apart, since a
//! crate with tests is proved twice.
#![tactic(auto)]

#[cfg(test)]
mod attr_pool_tests;
#[cfg(test)]
mod attr_rules_tests;
#[cfg(test)]
mod hook_book_tests;
#[cfg(test)]
mod list_counts_tests;
#[cfg(test)]
mod list_links_tests;
#[cfg(test)]
mod list_text_tests;
#[cfg(test)]
mod map_io_tests;
#[cfg(test)]
mod mesh_build_tests;
#[cfg(test)]
mod off_map_tests;
#[cfg(test)]
mod off_text_tests;
#[cfg(test)]
mod script_text_tests;
#[cfg(test)]
mod transport_tests;
#[cfg(test)]
mod undo_journal_tests;
