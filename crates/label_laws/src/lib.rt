//! Laws of ids: how the ids of darts tell the cells of a map that have values, and how they go on telling them where ids
//! are taken away and given.
//!
//! There is no code here. `specs/` has the relations, and `proofs/` what holds of them.
#![tactic(auto)]
