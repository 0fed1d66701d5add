//! The definitions of what maps are: kinds, links, cells, operations, values, meshes and their text. There is no code here:
//! `specs/` is to be read.
#![tactic(auto)]
