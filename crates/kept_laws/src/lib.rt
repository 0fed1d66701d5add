//! Laws of what is inserted: which cells keep their darts.
//!
//! A vertex on an edge keeps the faces and all other cells above dimension 1, and in a combinatorial map the vertices as well; an
//! edge in a face, a dangling edge and a vertex in the middle of a face keep the vertices; closing at link i keeps the cells of
//! dimensions below i of a generalized map, and closing at link 2 the vertices of a combinatorial map. To keep the cells of a
//! dimension is that two darts that lived before lie in one of them exactly where they lay in one before, whatever new darts
//! join them. So an edit that keeps the cells of a dimension needs no look at the darts that lived before.
//!
//! There is no code here. `specs/` has what it is to keep the cells of a dimension, and `proofs/` the laws.
#![tactic(auto)]
