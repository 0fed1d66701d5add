//! Laws of odd walks. Each law is a function with no parameters and an empty body: what it ensures is the law.
ghost use Rattle.std.specs.Prelude.{ℕ, List};
ghost use Rattle.map_defs.specs.Kind.{alpha};
ghost use Rattle.map_defs.specs.Cells.{NamesComponent};
ghost use Rattle.map_defs.specs.Rows.{Rows, IsLive, IsSound, links_of};
ghost use Rattle.half_defs.specs.Orientation.{HasBoundary, IsFirstOddWalk};

/// The first odd walk of a map without boundary starts at the least dart of its component.
///
/// For whoever shows the walk: its component is named by its start.
pub fn first_odd_walk_starts_at_a_least_dart()
    ensures { (n : ℕ) (rows : Rows) (d : ℕ) (links : List ℕ) → IsSound alpha n rows
        → (HasBoundary n (IsLive rows) (links_of rows) → ⊥)
        → IsFirstOddWalk n (IsLive rows) (links_of rows) d links → NamesComponent (links_of rows) d }
{}
