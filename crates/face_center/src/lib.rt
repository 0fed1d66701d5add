//! The edits that hang edges in faces: a dangling edge at a corner, and a vertex in the middle of a face with an edge to each
//! corner.
//!
//! Each dart of the corner, or of the face, gets two new darts: one at which its new edge begins, and one at which it ends. A
//! plan looks at the links and answers the edit; it changes nothing. What a plan answers is told for both kinds of map at
//! once, in `specs::Planning`.
#![tactic(auto)]

pub mod alpha;
pub mod beta;
mod center;
mod hanging;
mod writing;
