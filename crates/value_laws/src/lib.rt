//! The laws of values: how the cells of a map keep, share and merge their values when its links change.
//!
//! Each law is a function with no parameters and an empty body: what it ensures is the law, for both kinds, every
//! dimension and each change of links. A proof uses it by a call. The lemmas behind them are in `proofs/`.
#![tactic(auto)]

ghost use Rattle.std.specs.Prelude.{
  ◌≡◌,
  ◌≢◌,
  ◌↔◌,
  ◌⊎◌,
  ◌<◌,
  ◌+ℤ◌,
  ◌*ℤ◌,
  ℕ,
  ℤ,
  pos,
  List,
  Contains,
  Option,
  Some,
  None,
  IsSome,
};
ghost use Rattle.std.specs.Int.{int_div_euclid, int_rem_euclid};
ghost use Rattle.map_defs.specs.Kind.{Kind};
ghost use Rattle.map_defs.specs.Links.{Links};
ghost use Rattle.map_defs.specs.Laws.{Laws};
ghost use Rattle.map_defs.specs.Rows.{Rows, IsLive, links_of};
ghost use Rattle.map_defs.specs.Cells.{InCell};
ghost use Rattle.map_defs.specs.Walks.{IsTold};
ghost use Rattle.map_defs.specs.Touched.{IsTouched, IsOldCell, Touches, IsAlike, IsLabelled, Covers};
ghost use Rattle.map_defs.specs.Values.{Value, Rule, Hook, Meaning, meaning_of, KeepsWhole, AreWhole, IsRepresentable, dealt, total};
ghost use Rattle.map_defs.specs.Carry.{IsCarried, AreCarried, AreCarriedByLabel, IsValuedWith, AreEqualOnCells, known};
ghost use Rattle.value_laws.specs.Rerouted.{IsTouchedIn};
ghost use Rattle.map_defs.specs.Totals.{sum_share, ListsValuedCells, total_value, NoSumLeaves};

/// The touched darts touch every dimension: each new cell without one of them is an old cell.
///
/// For whoever looks for the cells that a change of links may have changed: it is enough to look at the cells of the
/// darts that were born, that are changed, and in a combinatorial map that one old or new link joins to a changed dart.
pub fn touched_darts_touch()
    ensures { (k : Kind) (i : ℕ) (old new : Rows) (touched : List ℕ) → Laws k (links_of old)
        → Laws k (links_of new)
        → ((x : ℕ) → IsTouched k (links_of old) (IsLive old) (links_of new) (IsLive new) x
        → Contains touched x)
        → Touches k i (links_of old) (IsLive old) (links_of new) (IsLive new) (Contains touched) }
{}

/// The darts that are touched in a dimension touch it: each new cell of the dimension without a dart that was born, or from
/// which a word of its cells leads elsewhere than before, is an old cell.
///
/// For whoever looks for the cells of one dimension that a change of links may have changed: a change of link i alone changes
/// no i-cell of a generalized map, and a word of two links may lead to the same dart although both its links changed.
pub fn rerouted_darts_touch()
    ensures { (k : Kind) (i : ℕ) (old new : Rows) (touched : List ℕ) → Laws k (links_of old)
        → Laws k (links_of new)
        → ((x : ℕ) → IsTouchedIn k i (links_of old) (IsLive old) (links_of new) (IsLive new) x
        → Contains touched x)
        → Touches k i (links_of old) (IsLive old) (links_of new) (IsLive new) (Contains touched) }
{}

/// Darts that touch a dimension cover the old labels there, where these tell the cells that have a value and no dart just
/// born has one: each new cell without one of the darts has no label, or a label of its own.
///
/// For whoever carries values by labels and looks at the cells of some darts alone.
pub fn touching_darts_cover()
    ensures { (k : Kind) (i : ℕ) (old new : Rows) (label : ℕ → Option ℕ) (touched : List ℕ)
        → Laws k (links_of old)
        → ((x : ℕ) → IsLive new x → (IsLive old x → ⊥) → label x ≡ None)
        → IsLabelled k i (links_of old) (IsLive old) label
        → Touches k i (links_of old) (IsLive old) (links_of new) (IsLive new) (Contains touched)
        → Covers k i (links_of new) (IsLive new) label (Contains touched) }
{}

/// A new cell has one value or none: the values of its darts are the same, and two accounts of the values are the same.
///
/// For whoever keeps one value for a cell, and for whoever compares two ways to carry the values of a map.
pub fn new_cells_have_one_value()
    ensures on_cells { (k : Kind) (i : ℕ) (rule : Meaning) (old new : Rows)
        (values after : ℕ → Option Value) → Laws k (links_of old) → Laws k (links_of new)
        → AreCarried k i rule (links_of old) (IsLive old) values (links_of new) (IsLive new) after
        → AreEqualOnCells k i (links_of new) (IsLive new) after }
    ensures one { (k : Kind) (i : ℕ) (rule : Meaning) (old new : Rows)
        (values after other : ℕ → Option Value) → Laws k (links_of old) → Laws k (links_of new)
        → AreCarried k i rule (links_of old) (IsLive old) values (links_of new) (IsLive new) after
        → AreCarried k i rule (links_of old) (IsLive old) values (links_of new) (IsLive new) other
        → (d : ℕ) → IsLive new d → after d ≡ other d }
{}

/// A new cell that is an old one keeps its value, or its want of one, under each rule that leaves whole what is not split,
/// where the value is within 64 bits. And the value that it keeps is the one that the definition gives it, where it is told which darts lie in the cell.
///
/// For whoever leaves the cells alone in which no dart is touched.
pub fn old_cells_keep_their_values()
    ensures kept { (k : Kind) (i : ℕ) (rule : Meaning) (old new : Rows) (values : ℕ → Option Value)
        → Laws k (links_of old) → Laws k (links_of new) → KeepsWhole rule
        → AreEqualOnCells k i (links_of old) (IsLive old) values
        → (d : ℕ) → ((v : Value) → values d ≡ Some v → IsRepresentable v) → IsLive new d → IsOldCell k i (links_of old) (IsLive old) (links_of new) d
        → (r : Option Value)
        → IsCarried rule (λ x. known (values x)) (λ x. IsLive old x × IsLive new x)
        (IsValuedWith k i (links_of old) values) (InCell k (links_of new) i) d r → r ≡ values d }
    ensures given { (k : Kind) (i : ℕ) (rule : Meaning) (old new : Rows) (values : ℕ → Option Value)
        → Laws k (links_of old) → Laws k (links_of new) → KeepsWhole rule
        → AreEqualOnCells k i (links_of old) (IsLive old) values
        → (d : ℕ) → ((v : Value) → values d ≡ Some v → IsRepresentable v) → IsLive new d → IsOldCell k i (links_of old) (IsLive old) (links_of new) d
        → IsTold (InCell k (links_of new) i d) ⊎ (values d ≡ None)
        → IsCarried rule (λ x. known (values x)) (λ x. IsLive old x × IsLive new x)
        (IsValuedWith k i (links_of old) values) (InCell k (links_of new) i) d (values d) }
{}

/// The names of the old cells do not matter: other labels for the same cells carry the same values, and labels that tell
/// the valued cells carry the values of the map.
///
/// For whoever gives a label freely, and for whoever reads the values that labels carry as those of the map.
pub fn names_of_cells_do_not_matter()
    ensures labels { (k : Kind) (i : ℕ) (rule : Meaning) (old new : Rows) (label other : ℕ → Option ℕ)
        (value worth : ℕ → Value) (after : ℕ → Option Value)
        → ((x y : ℕ) → IsLive old x → IsLive old y → IsAlike label x y ↔ IsAlike other x y) → ((x : ℕ)
        → IsLive old x → IsAlike label x x → value x ≡ worth x)
        → AreCarriedByLabel k i rule (IsLive old) label value (links_of new) (IsLive new) after
        → AreCarriedByLabel k i rule (IsLive old) other worth (links_of new) (IsLive new) after }
    ensures cells { (k : Kind) (i : ℕ) (rule : Meaning) (old new : Rows) (values : ℕ → Option Value)
        (label : ℕ → Option ℕ) (value : ℕ → Value) (after : ℕ → Option Value)
        → ((x y : ℕ) → IsLive old x → IsLive old y
        → IsAlike label x y ↔ IsValuedWith k i (links_of old) values x y) → ((x : ℕ) → IsLive old x
        → IsAlike label x x → value x ≡ known (values x))
        → AreCarriedByLabel k i rule (IsLive old) label value (links_of new) (IsLive new) after
        ↔ AreCarried k i rule (links_of old) (IsLive old) values (links_of new) (IsLive new) after }
{}

/// Every rule leaves whole the value of a cell that is not split, if the hook does by itself and by each rule that it knows
/// by name.
///
/// For whoever hands in a hook: beside this only its names are looked at.
pub fn rules_leave_whole_what_is_not_split()
    ensures { (hook : Hook) (rule : Rule) → AreWhole hook → KeepsWhole (meaning_of hook rule) }
{}

/// The parts of a number that is dealt out add up to it: it is k times its quotient and its rest, the rest is from 0 to
/// k - 1, and as many of the k parts are greater by one.
///
/// For whoever relies on totals: dealing out neither makes nor loses anything, for numbers below 0 too.
pub fn dealt_numbers_add_up()
    ensures quotient { (k : ℕ) (v : ℤ) → 0 < k
        → v ≡ int_div_euclid v (pos k) *ℤ pos k +ℤ int_rem_euclid v (pos k) }
    ensures rest { (k : ℕ) (v : ℤ) → 0 < k → (r : ℕ) × (r < k) × (int_rem_euclid v (pos k) ≡ pos r) }
    ensures parts { (k : ℕ) (v : ℤ) → 0 < k → total k (λ p. dealt k p v) ≡ v }
{}

/// Under the rule `sum share` the total of a dimension stays: the values of its cells, each of the three numbers by itself,
/// add up to the same before and after a change of links by which no dart dies, if no sum of parts leaves 64 bits. The
/// cells are told by their least darts, each cell that has a value once.
///
/// For whoever keeps amounts in cells, as lengths on edges: to make polygons and darts, to sew and unsew and to insert
/// neither makes nor loses anything. Where all darts of a cell die, its value is lost.
pub fn sum_share_keeps_totals()
    ensures { (k : Kind) (i : ℕ) (hook : Hook) (old new : Rows) (values after : ℕ → Option Value)
        (cells cells_after : List ℕ) → Laws k (links_of old) → Laws k (links_of new)
        → ((x : ℕ) → IsLive old x → IsLive new x)
        → AreEqualOnCells k i (links_of old) (IsLive old) values
        → AreCarried k i (sum_share hook) (links_of old) (IsLive old) values (links_of new) (IsLive new) after
        → NoSumLeaves k i (sum_share hook) (links_of old) (IsLive old) values (links_of new) (IsLive new)
        → ListsValuedCells k i (links_of old) (IsLive old) values cells
        → ListsValuedCells k i (links_of new) (IsLive new) after cells_after
        → total_value values cells ≡ total_value after cells_after }
{}
