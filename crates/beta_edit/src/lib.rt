//! The edits that insert a vertex, an edge or a face into a combinatorial map, and those that remove or contract a cell.
//!
//! A vertex and an edge make new darts on the ways around the faces, so links 1 and 0 change. A removal and a contraction end
//! the darts of a cell, and draw links across it. A plan looks at the links and answers the edit; it changes nothing. What a
//! plan answers is told for both kinds of map at once, in `cell_edit::specs::Planning`.
#![tactic(auto)]

mod apart;
mod contraction;
mod crossing;
mod cut;
mod drawing;
mod edge;
mod flat;
mod removal;
mod vertex;

pub use cell_edit::face_plan;
pub use contraction::{contract_plan, contractible};
pub use edge::edge_plan;
pub use removal::{removable, remove_plan};
pub use vertex::vertex_plan;
