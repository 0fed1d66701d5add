//! The laws of the dual: what holds of the map whose cells are those of a given map, read from the other end.
//!
//! Each law is a function with no parameters and an empty body: what it ensures is the law, for both kinds and every
//! dimension. A proof uses it by a call. The lemmas behind them are in `proofs/`.
#![tactic(auto)]

ghost use Rattle.std.specs.Prelude.{◌≡◌, ◌≢◌, ◌↔◌, ◌≤◌, ◌-◌, ℕ};
ghost use Rattle.map_defs.specs.Kind.{Kind};
ghost use Rattle.map_defs.specs.Links.{Links};
ghost use Rattle.map_defs.specs.Laws.{Laws};
ghost use Rattle.map_defs.specs.Rows.{Rows, IsLive, AreWide, links_of};
ghost use Rattle.map_defs.specs.Cells.{InCell};
ghost use Rattle.map_defs.specs.Dual.{IsDual, IsDualable};

/// The dual of a map that has one is a map: it obeys the laws.
///
/// For whoever plans the dual and applies it.
pub fn dual_keeps_the_laws()
    ensures { (k : Kind) (n : ℕ) (rows : Rows) (N : Links) → 2 ≤ n → Laws k (links_of rows)
        → IsDualable k n (links_of rows) (IsLive rows) → IsDual k n (links_of rows) N → Laws k N }
{}

/// Taking the dual twice gives all links back: the dual has a dual in its turn, and that is the map.
///
/// For an editor that shows the dual for a while and takes it again to return.
pub fn dual_twice_is_the_map()
    ensures possible { (k : Kind) (n : ℕ) (rows : Rows) (N : Links) → 2 ≤ n → AreWide n rows
        → Laws k (links_of rows) → IsDualable k n (links_of rows) (IsLive rows)
        → IsDual k n (links_of rows) N → IsDualable k n N (IsLive rows) }
    ensures back { (k : Kind) (n : ℕ) (rows : Rows) (N M : Links) → 2 ≤ n → AreWide n rows
        → Laws k (links_of rows) → IsDualable k n (links_of rows) (IsLive rows)
        → IsDual k n (links_of rows) N → IsDual k n N M
        → (t x : ℕ) → M t x ≡ links_of rows t x }
{}

/// There is one dual, in every dimension and whether or not the links obey the laws.
///
/// For whoever compares a planned dual with another account of it.
pub fn dual_is_one()
    ensures { (k : Kind) (n : ℕ) (L N M : Links) → IsDual k n L N → IsDual k n L M → (t x : ℕ)
        → N t x ≡ M t x }
{}

/// The cells of dimension i of the dual are the cells of dimension n - i of the map, as sets of darts.
///
/// For whoever carries values over to the dual: no cell is split or merged, so its value and its label stay its own.
pub fn dual_has_the_same_cells()
    ensures { (k : Kind) (n : ℕ) (rows : Rows) (N : Links) → 2 ≤ n → AreWide n rows → Laws k (links_of rows)
        → IsDualable k n (links_of rows) (IsLive rows) → IsDual k n (links_of rows) N
        → (i d x : ℕ) → i ≤ n → d ≢ 0 → InCell k N i d x ↔ InCell k (links_of rows) (n - i) d x }
{}
