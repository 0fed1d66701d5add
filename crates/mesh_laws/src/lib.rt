//! Laws of the links that the sides of a mesh make: sides without a fault are paired, and the edit that lists their links
//! makes the map of the mesh.
//!
//! There is no code here. `specs/` has sides by their numbers and their links, and `proofs/` what holds of them, for the
//! laws of loading and for the code that builds the map of a mesh.
#![tactic(auto)]
