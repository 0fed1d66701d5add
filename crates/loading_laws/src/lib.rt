//! Laws of the map that a mesh is loaded as: a mesh without a fault has one, and it keeps the laws.
//!
//! Each law is a function with no parameters and an empty body: what it ensures is the law, for both kinds and every
//! dimension. A proof uses it by a call. The lemmas behind them are in `proofs/`, for other laws to build on.
#![tactic(auto)]

ghost use Rattle.std.specs.Prelude.{◌≡◌, ◌≤◌, ℕ, None};
ghost use Rattle.map_defs.specs.Kind.{Kind};
ghost use Rattle.machine_defs.specs.State.{Content};
ghost use Rattle.map_defs.specs.Off.{Mesh};
ghost use Rattle.map_defs.specs.MeshMap.{mesh_fault};
ghost use Rattle.machine_defs.specs.Loading.{IsMeshContent};
ghost use Rattle.machine_defs.specs.Kept.{IsLawfulContent};

/// A mesh without a fault has a map, and it keeps the laws.
///
/// For whoever reads what the map of a mesh is: the definition asks for nothing that no map has, also where a face has fewer
/// than three corners or names a point that the mesh does not have.
pub fn mesh_has_a_map()
    ensures { (k : Kind) (n : ℕ) (mesh : Mesh) → 2 ≤ n → mesh_fault k mesh ≡ None
        → (c : Content) × IsMeshContent k n mesh c × IsLawfulContent c }
{}

/// A mesh has one map: its sides tell all links, and the points of its vertices all values.
///
/// For whoever loads a mesh: there is one state that a script can start from.
pub fn one_mesh_map()
    ensures { (k : Kind) (n : ℕ) (mesh : Mesh) (one other : Content) → IsMeshContent k n mesh one → IsMeshContent k n mesh other
        → one ≡ other }
{}

/// Each map of a mesh without a fault keeps the laws.
///
/// For whoever starts from the map of a mesh: the machine keeps the laws from its first state on.
pub fn mesh_maps_keep_the_laws()
    ensures { (k : Kind) (n : ℕ) (mesh : Mesh) (c : Content) → 2 ≤ n → mesh_fault k mesh ≡ None → IsMeshContent k n mesh c
        → IsLawfulContent c }
{}
