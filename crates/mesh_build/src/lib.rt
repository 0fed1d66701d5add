//! The map of a mesh: its links, or an edit that makes them from nothing, and the points of its vertices.
#![tactic(auto)]

mod book;
mod build;
mod edit;
mod fault;
mod links;
mod places;
mod repeat;
mod sew;
mod side;

pub use build::{Built, MeshMap, mesh_map, mesh_rows};
pub use fault::MeshFault;
