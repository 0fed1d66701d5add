ghost use Rattle.std.specs.Prelude.{◌≡◌, ℕ, ◌<◌, List, length, Option, Some, Contains};
ghost use Rattle.map_defs.specs.Kind.{Kind};
ghost use Rattle.map_defs.specs.Rows.{Rows, IsLive, links_of, IsSound};
ghost use Rattle.map_defs.specs.Cells.{InCell};
ghost use Rattle.map_defs.specs.Touched.{IsAlike};
ghost use Rattle.map_defs.specs.Values.{Value, Rule, Hook, meaning_of};
ghost use Rattle.map_defs.specs.Carry.{IsCarried, AreCarriedByLabel};
ghost use Rattle.store_defs.specs.Stores.{Store};
ghost use Rattle.store_defs.specs.Groups.{Group, group_at, rule_at, labelled_value, known_value, AreTouchedCells, HasCarriedValue};

/// Where each cell of a dimension with a rule is given the value of the group that holds it, and every other cell keeps
/// the value of its one label, the values are those that are carried over the whole map: all that `carry` says of its
/// answer comes to this. Each live dart with a label lived before the change.
///
/// For whoever puts the values of groups at their cells and leaves all others alone.
pub fn groups_carry_the_whole_map()
    ensures { (k : Kind) (dim : ℕ) (old new : Rows) (label : ℕ → ℕ → Option ℕ) (pool : Store) (hook : Hook)
        (rules : List (Option Rule)) (touched : ℕ → List ℕ) (groups : List Group) (i : ℕ) (rule : Rule)
        (after : ℕ → Option Value) → IsSound k dim new
        → AreTouchedCells k (links_of new) rules touched groups
        → ((n : ℕ) → n < length groups
        → HasCarriedValue k (links_of new) (IsLive new) label pool hook rules (group_at groups n))
        → rule_at rules i ≡ Some rule
        → ((d : ℕ) → IsLive new d → ((x : ℕ) → InCell k (links_of new) i d x → Contains (touched i) x → ⊥)
        → IsCarried (meaning_of hook rule) (known_value pool (label i)) (IsLive new) (IsAlike (label i))
        (InCell k (links_of new) i) d (labelled_value pool (label i d)))
        → ((x id : ℕ) → IsLive new x → label i x ≡ Some id → IsLive old x)
        → ((n d : ℕ) → n < length groups → (group_at groups n).dim ≡ i → Contains (group_at groups n).darts d
        → after d ≡ (group_at groups n).value)
        → ((d : ℕ) → IsLive new d
        → ((n : ℕ) → n < length groups → (group_at groups n).dim ≡ i → Contains (group_at groups n).darts d → ⊥)
        → after d ≡ labelled_value pool (label i d))
        → AreCarriedByLabel k i (meaning_of hook rule) (IsLive old) (label i) (known_value pool (label i)) (links_of new)
        (IsLive new) after }
{}
