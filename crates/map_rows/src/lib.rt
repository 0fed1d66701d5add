//! The worked rows of the program, as tables of tests: what it writes for a script, and its status.
#![tactic(auto)]

#[cfg(test)]
mod audits;
#[cfg(test)]
mod closings;
#[cfg(test)]
mod combinatorial;
#[cfg(test)]
mod faults;
#[cfg(test)]
mod halves;
#[cfg(test)]
mod harness;
#[cfg(test)]
mod insertions;
#[cfg(test)]
mod lines;
#[cfg(test)]
mod marks;
#[cfg(test)]
mod meshes;
#[cfg(test)]
mod off;
#[cfg(test)]
mod polygons;
#[cfg(test)]
mod prefixes;
#[cfg(test)]
mod removals;
#[cfg(test)]
mod soaks;
#[cfg(test)]
mod values;
#[cfg(test)]
mod words;
