//! What the edits of cells have in common for both kinds of map: new darts beyond those of a set, the changes by which darts
//! end and links are drawn across them, and the edit that inserts a face.
//!
//! An insertion makes a new dart beyond one link of each dart of a set. A removal and a contraction end the darts of a cell.
//! A plan looks at the links and answers the edit; it changes nothing. What each plan answers is told once for both kinds, in
//! `specs::Planning`.
#![tactic(auto)]

mod along;
mod corner;
mod crossing;
mod ending;
mod face;
mod firsts;
mod insertion;
mod near;
mod path;
mod places;
mod room;
mod stars;
mod writing;

pub use along::{carried_darts, carrying_links, insertion_pairs, leads};
pub use corner::{
    alpha_corner, are_in_one_alpha_corner, are_in_one_beta_corner, beta_corner, copying_links,
};
pub use crossing::{are_commuting, is_among};
pub use ending::ending_edit;
pub use face::face_plan;
pub use firsts::corners;
pub use insertion::insertion_edit;
pub use near::are_on_one_side;
pub use room::room_for_changes;
pub use stars::Stars;
pub use writing::push_link;
