//! Laws of what the values of a dimension add up to under the rule `sum share`, line by line and over a whole script.
//!
//! Each law is a function with no parameters and an empty body: what it ensures is the law. The lemmas behind the laws are in
//! `proofs/`.
#![tactic(auto)]

ghost use Rattle.std.specs.Prelude.{◌≡◌, ℕ, List};
ghost use Rattle.map_defs.specs.Values.{Value, Hook};
ghost use Rattle.machine_defs.specs.State.{Content, State};
ghost use Rattle.machine_defs.specs.Kept.{IsLawfulContent, IsLawfulState};
ghost use Rattle.machine_defs.specs.Listing.{ListValue, ListsValues, listed_total};
ghost use Rattle.machine_defs.specs.Script.{Line};
ghost use Rattle.machine_defs.specs.Text.{Reply};
ghost use Rattle.machine_defs.specs.Machine.{Step, Run};
ghost use Rattle.total_laws.specs.Totals.{HasTotal, IsSumShare, KeepsTotals, OnlyMakesDarts, SumsStayWithin, EachKeepsTotals};

/// A dimension has at most one total, and each listing of the content shows it.
///
/// For whoever adds up the values of one dimension, and of a listing: both add up to the same.
pub fn one_total()
    ensures one { (c : Content) (i : ℕ) (total other : Value) → HasTotal c i total → HasTotal c i other → total ≡ other }
    ensures listed { (c : Content) (i : ℕ) (values : List ListValue) → ListsValues c values → HasTotal c i (listed_total i values) }
{}

/// Under the rule `sum share` the lines that make darts or change links, and end none, keep the total of a dimension:
/// `polygon`, `dart`, `sew`, `unsew`, `vertex`, `edge`, `face`, `close`, `dangle` and `center`. A step by such a line from a
/// state as the machine keeps it leads to one with the same total, if no sum of parts leaves 64 bits; where the line is
/// refused nothing changes. And what `polygon` and `dart` make changes no value in any dimension, whatever its rule.
///
/// For whoever keeps amounts in cells, as lengths on edges or heads on faces: to build makes and loses nothing.
pub fn lines_keep_totals()
    ensures listed { (hook : Hook) (s new : State) (line : Line) (reply : Reply) (i : ℕ) (values after : List ListValue)
        → IsLawfulState s → IsSumShare s.present i → KeepsTotals line → Step hook s line reply new
        → SumsStayWithin hook i s.present new.present → ListsValues s.present values → ListsValues new.present after
        → listed_total i values ≡ listed_total i after }
    ensures total { (hook : Hook) (s new : State) (line : Line) (reply : Reply) (i : ℕ) (total after : Value)
        → IsLawfulState s → IsSumShare s.present i → KeepsTotals line → Step hook s line reply new
        → SumsStayWithin hook i s.present new.present → HasTotal s.present i total → HasTotal new.present i after
        → total ≡ after }
    ensures rule { (hook : Hook) (s new : State) (line : Line) (reply : Reply) (i : ℕ) → IsSumShare s.present i → KeepsTotals line
        → Step hook s line reply new → IsSumShare new.present i }
    ensures made { (hook : Hook) (s new : State) (line : Line) (reply : Reply) (values after : List ListValue) → IsLawfulState s
        → OnlyMakesDarts line → Step hook s line reply new → ListsValues s.present values → ListsValues new.present after
        → values ≡ after }
{}

/// Under the rule `sum share` a whole script keeps the total of a dimension, if each of its lines that changes the content is
/// one that keeps totals, and no sum of parts leaves 64 bits on the way. Questions, marks and refused lines may stand between.
///
/// For whoever checks a long session by one sum at its end.
pub fn runs_keep_totals()
    ensures { (hook : Hook) (s new : State) (lines : List (List ℕ)) (replies : List Reply) (i : ℕ) (total after : Value)
        → IsLawfulState s → IsSumShare s.present i → Run hook s lines replies new → EachKeepsTotals hook i s lines
        → HasTotal s.present i total → HasTotal new.present i after → total ≡ after }
{}
