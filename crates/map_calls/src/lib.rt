//! Tests of the map's calls: that each is obeyed where memory is there, and that random lines carry the values that are
//! carried plainly. They stand apart, since a crate with tests is proved twice.
#![tactic(auto)]

#[cfg(test)]
mod calls;
#[cfg(test)]
mod lines;
#[cfg(test)]
mod rows;
#[cfg(test)]
mod soaks;
#[cfg(test)]
mod whole_map;
