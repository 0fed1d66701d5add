//! The edits that close a map at a link: each dart that is free there gets a new dart, and the new darts are joined around
//! the boundary.
//!
//! A plan looks at the links and answers the edit; it changes nothing. What closing is, after CGAL's operation of that name,
//! is told in `map_defs::specs::Closing`, and what a plan answers in `specs::Planning`, for both kinds of map at once.
#![tactic(auto)]

pub mod alpha;
pub mod beta;
mod boundary;
mod closing;
mod star_table;
