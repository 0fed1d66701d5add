//! The definitions of the oriented half of a generalized map and of the double of a combinatorial map: signs of darts, what
//! stands in their way, the half and the double. There is no code here: `specs/` is to be read.
#![tactic(auto)]
