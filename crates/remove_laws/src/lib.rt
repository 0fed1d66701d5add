//! The laws of removal and contraction: what holds of the map after a cell is removed or contracted.
//!
//! Each law is a function with no parameters and an empty body: what it ensures is the law, for all links of both kinds
//! and of every dimension, and for cells of every dimension. A proof uses it by a call. The lemmas behind them are in
//! `proofs/`.
#![tactic(auto)]

ghost use Rattle.std.specs.Prelude.{◌≡◌, ◌≢◌, ℕ};
ghost use Rattle.map_defs.specs.Kind.{Kind, beta};
ghost use Rattle.map_defs.specs.Links.{Links, IsMadeUpTo};
ghost use Rattle.map_defs.specs.Laws.{Laws};
ghost use Rattle.map_defs.specs.Cells.{InCell};
ghost use Rattle.map_defs.specs.Walks.{Walk, IsTold};
ghost use Rattle.map_defs.specs.Removal.{IsRemovable, IsRemoved, RunsTo, across_removed};
ghost use Rattle.map_defs.specs.Contraction.{IsContractible, IsContracted, across_contracted};

/// Removing a cell that can be removed keeps the laws, for both kinds and cells of every dimension.
///
/// For whoever plans a removal and applies it: the map stays a map, also in combinatorial maps with free links.
pub fn removal_keeps_the_laws()
    ensures { (k : Kind) (made i d : ℕ) (L N : Links) → Laws k L → IsMadeUpTo made L → d ≢ 0
        → IsRemovable k L i d → IsRemoved k i d L N → Laws k N }
{}

/// Contracting a cell that can be contracted keeps the laws, for both kinds and cells of every dimension.
///
/// For whoever plans a contraction and applies it: the map stays a map, also in combinatorial maps with free links.
pub fn contraction_keeps_the_laws()
    ensures { (k : Kind) (made i d : ℕ) (L N : Links) → Laws k L → IsMadeUpTo made L → d ≢ 0
        → IsContractible k L i d → IsContracted k i d L N → Laws k N }
{}

/// There is one map after a removal: two maps that both are the map without the cell have the same links.
///
/// For whoever compares a planned removal with another account of it, as a listing of what a removal must give.
pub fn removal_is_one()
    ensures { (k : Kind) (made i d : ℕ) (L N M : Links) → Laws k L → IsMadeUpTo made L → d ≢ 0
        → IsRemovable k L i d → IsRemoved k i d L N → IsRemoved k i d L M → (t x : ℕ) → N t x ≡ M t x }
{}

/// There is one map after a contraction.
///
/// For whoever compares a planned contraction with another account of it.
pub fn contraction_is_one()
    ensures { (k : Kind) (made i d : ℕ) (L N M : Links) → Laws k L → IsMadeUpTo made L → d ≢ 0
        → IsContractible k L i d → IsContracted k i d L N → IsContracted k i d L M → (t x : ℕ)
        → N t x ≡ M t x }
{}

/// Each walk across a removed or a contracted cell from a remaining dart comes to an end, where it is told which darts
/// lie in the cell: outside the cell, and so in a generalized map maybe at the dart from which it set out.
///
/// For whoever follows the walk in a loop: it ends, and ends where the new link leads.
pub fn walks_end()
    ensures removal { (k : Kind) (made i d : ℕ) (L : Links) → Laws k L → IsMadeUpTo made L → d ≢ 0
        → (k ≡ beta → i ≢ 0) → IsRemovable k L i d → IsTold (InCell k L i d)
        → (x : ℕ) → (InCell k L i d x → ⊥)
        → (y : ℕ) × Walk (InCell k L i d) (across_removed k L i) (L i x) y }
    ensures vertex { (made d : ℕ) (L : Links) → Laws beta L → IsMadeUpTo made L → d ≢ 0
        → IsRemovable beta L 0 d → IsTold (InCell beta L 0 d)
        → (x : ℕ) → (InCell beta L 0 d x → ⊥) → (y : ℕ) × RunsTo L (InCell beta L 0 d) x y }
    ensures contraction { (k : Kind) (made i d : ℕ) (L : Links) → Laws k L → IsMadeUpTo made L → d ≢ 0
        → IsContractible k L i d → IsTold (InCell k L i d)
        → (x : ℕ) → (InCell k L i d x → ⊥)
        → (y : ℕ) × Walk (InCell k L i d) (across_contracted k L i) (L i x) y }
{}

/// The new link 1 of a combinatorial map is one-to-one: two remaining darts whose walks or runs lead on to one dart are
/// the same.
///
/// For whoever writes the new link 0 as the inverse of the new link 1: each dart gets at most one dart before it.
pub fn new_link_one_is_one_to_one()
    ensures removed_edge { (made d : ℕ) (L : Links) → Laws beta L → IsMadeUpTo made L → d ≢ 0
        → IsRemovable beta L 1 d
        → (x y z : ℕ) → (InCell beta L 1 d x → ⊥) → (InCell beta L 1 d y → ⊥) → z ≢ 0
        → Walk (InCell beta L 1 d) (across_removed beta L 1) (L 1 x) z
        → Walk (InCell beta L 1 d) (across_removed beta L 1) (L 1 y) z → x ≡ y }
    ensures contracted_edge { (made d : ℕ) (L : Links) → Laws beta L → IsMadeUpTo made L → d ≢ 0
        → (x y z : ℕ) → (InCell beta L 1 d x → ⊥) → (InCell beta L 1 d y → ⊥) → z ≢ 0
        → Walk (InCell beta L 1 d) (across_contracted beta L 1) (L 1 x) z
        → Walk (InCell beta L 1 d) (across_contracted beta L 1) (L 1 y) z → x ≡ y }
    ensures removed_vertex { (made d : ℕ) (L : Links) → Laws beta L → IsMadeUpTo made L → d ≢ 0
        → IsRemovable beta L 0 d
        → (x y u v : ℕ) → (InCell beta L 0 d x → ⊥) → (InCell beta L 0 d y → ⊥)
        → RunsTo L (InCell beta L 0 d) x u → RunsTo L (InCell beta L 0 d) y v → L 1 u ≢ 0 → L 1 u ≡ L 1 v
        → x ≡ y }
{}
