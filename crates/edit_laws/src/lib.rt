//! Laws of edits: what births, changes of links and deaths make of the rows of a map.
//!
//! Each law is a function with no parameters and an empty body: what it ensures is the law, for both kinds and every
//! dimension. The lemmas behind them are in `proofs/`, for other laws and for code to build on.
#![tactic(auto)]

ghost use Rattle.std.specs.Prelude.{◌≡◌, ℕ};
ghost use Rattle.map_defs.specs.Kind.{Kind};
ghost use Rattle.map_defs.specs.Rows.{Rows, IsSound};
ghost use Rattle.map_defs.specs.Edits.{Edit, IsLed, before_edit};

/// The rows after an edit that fits are sound again: their entries name live darts, and the inverse link leads back.
///
/// For whoever changes rows by edits alone: that an edit fits is all there is to check.
pub fn edit_makes_sound_rows()
    ensures { (k : Kind) (n : ℕ) (edit : Edit) (old new : Rows) → IsLed k n edit old new → IsSound k n new }
{}

/// An edit that led from rows to others, taken back from these, gives the rows before it, the numbers of new darts among
/// them.
///
/// For whoever keeps edits in place of the rows before them.
pub fn edit_is_taken_back()
    ensures { (k : Kind) (n : ℕ) (edit : Edit) (old new : Rows) → IsLed k n edit old new → before_edit n edit new ≡ old }
{}
