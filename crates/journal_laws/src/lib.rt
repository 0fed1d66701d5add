//! Laws of the journal: a difference of contents is one, it leads on and back, and an edit may be put into order.
//!
//! Each law is a function with no parameters and an empty body: what it ensures is the law, for all contents. A proof uses
//! it by a call. The lemmas behind them are in `proofs/`, for other laws and for code to build on.
#![tactic(auto)]

ghost use Rattle.std.specs.Prelude.{◌≡◌, ℕ, ◌-◌, ◌≤◌, ◌<◌, List, length, take, drop, slice_index_or};
ghost use Rattle.std.specs.List.Sorted.{IsPermutation};
ghost use Rattle.map_defs.specs.Kind.{Kind};
ghost use Rattle.map_defs.specs.Rows.{Rows, IsSound};
ghost use Rattle.map_defs.specs.Edits.{Change, Edit, Fits, IsLed, after_edit};
ghost use Rattle.machine_defs.specs.State.{Content};
ghost use Rattle.machine_defs.specs.Difference.{Difference, IsDifference, AreDifferences, put_forward, taken_back};
ghost use Rattle.journal_laws.specs.Following.{Follows, AllFollow, all_put_forward, all_taken_back};
ghost use Rattle.journal_laws.specs.Ordering.{IsInOrder, IsRowsDifference};

/// Two contents have one difference. Nothing is asked of them.
///
/// For whoever compares a step that was kept with the difference that a log must show: they are the same.
pub fn difference_is_one()
    ensures { (a b : Content) (s s' : Difference) → IsDifference a b s → IsDifference a b s' → s ≡ s' }
{}

/// Contents in a row have one list of differences between neighbours.
///
/// For whoever shows the steps since a mark: there is one list to show.
pub fn differences_are_one()
    ensures { (cs : List Content) (ss ss' : List Difference) → AreDifferences cs ss → AreDifferences cs ss' → ss ≡ ss' }
{}

/// The difference of two contents that follow one another, put forward, leads from the first to the next. Its edit fits
/// the first content's rows and leads to the next one's.
///
/// For whoever keeps steps in place of contents: a step can be made again, and its edit can be taken back.
pub fn difference_leads_on()
    ensures next { (a b : Content) (s : Difference) → Follows a b → IsDifference a b s → put_forward s a ≡ b }
    ensures fits { (a b : Content) (s : Difference) → Follows a b → IsDifference a b s → Fits a.kind a.dim a.rows s.edit }
    ensures led { (a b : Content) (s : Difference) → Follows a b → IsDifference a b s
        → IsLed a.kind a.dim s.edit a.rows b.rows }
{}

/// The difference of two contents that follow one another, taken back, leads from the next to the first.
///
/// For whoever undoes a step that was kept: nothing of the earlier content is lost.
pub fn difference_leads_back()
    ensures { (a b : Content) (s : Difference) → Follows a b → IsDifference a b s → taken_back s b ≡ a }
{}

/// Of contents that follow one another, with the differences between neighbours: a later one is an earlier one with the
/// differences between them put forward, and the earlier is the later with these taken back, the last first. The default d
/// stands for no content, since the places are within the list.
///
/// For whoever keeps the present and the steps to it in place of the past: each past content is found again, and where
/// steps taken back are kept, the present too.
pub fn steps_lead_back()
    ensures long { (cs : List Content) (ss : List Difference) → AreDifferences cs ss → length ss ≡ length cs - 1 }
    ensures last { (cs : List Content) (ss : List Difference) (d : Content) → AllFollow cs → AreDifferences cs ss
        → 1 ≤ length cs → all_put_forward ss (slice_index_or cs 0 d) ≡ slice_index_or cs (length cs - 1) d }
    ensures first { (cs : List Content) (ss : List Difference) (d : Content) → AllFollow cs → AreDifferences cs ss
        → 1 ≤ length cs → all_taken_back ss (slice_index_or cs (length cs - 1) d) ≡ slice_index_or cs 0 d }
    ensures at { (cs : List Content) (ss : List Difference) (d : Content) (j : ℕ) → AllFollow cs → AreDifferences cs ss
        → j < length cs → all_put_forward (take j ss) (slice_index_or cs 0 d) ≡ slice_index_or cs j d }
    ensures on_between { (cs : List Content) (ss : List Difference) (d : Content) (i j : ℕ) → AllFollow cs
        → AreDifferences cs ss → i ≤ j → j < length cs
        → all_put_forward (drop i (take j ss)) (slice_index_or cs i d) ≡ slice_index_or cs j d }
    ensures back_between { (cs : List Content) (ss : List Difference) (d : Content) (i j : ℕ) → AllFollow cs
        → AreDifferences cs ss → i ≤ j → j < length cs
        → all_taken_back (drop i (take j ss)) (slice_index_or cs j d) ≡ slice_index_or cs i d }
{}

/// An edit that fits does the same with its changes in any other order, and fits so too.
///
/// For whoever sorts the changes of an edit that was made, as a log has them.
pub fn edit_in_order()
    ensures fits { (k : Kind) (n : ℕ) (rows : Rows) (e : Edit) (changes : List Change) → IsSound k n rows → Fits k n rows e
        → IsPermutation e.changes changes → Fits k n rows (record e { changes = changes }) }
    ensures after { (k : Kind) (n : ℕ) (rows : Rows) (e : Edit) (changes : List Change) → IsSound k n rows → Fits k n rows e
        → IsPermutation e.changes changes → after_edit n (record e { changes = changes }) rows ≡ after_edit n e rows }
{}

/// An edit that fits, whose changes all change something and stand in the order of a log, and whose deaths ascend, is the
/// difference of the rows before it and those after it.
///
/// For whoever keeps the edit that was made as the step that a log shows.
pub fn edit_is_difference()
    ensures { (k : Kind) (n : ℕ) (rows : Rows) (e : Edit) → IsSound k n rows → Fits k n rows e → IsInOrder e
        → IsRowsDifference rows (after_edit n e rows) e }
{}
