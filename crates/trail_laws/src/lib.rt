//! Laws of the state that a present content and a trail of steps tell.
//!
//! A trail keeps steps, marks with a place each, and for each undo where it went from; it keeps no contents. With the
//! present content it tells a whole state: the past, each mark with its copy, and what stood before each undo that can be
//! taken back. These laws say that a step noted, a mark set, an undo and a redo make of what is told what they make of a
//! state with whole copies. Each law is a function with no parameters and an empty body: what it ensures is the law. A proof
//! uses it by a call. The lemmas behind them are in `proofs/`, for code to build on.
#![tactic(auto)]

ghost use Rattle.std.specs.Prelude.{◌≡◌, ◌≢◌, ◌↔◌, ℕ, ◌+◌, ◌≤◌, ◌<◌, List, [], ◌∷◌, ◌++◌, length, take, drop, map, Some, All, AllPairs, slice_get, slice_index_or};
ghost use Rattle.map_defs.specs.Edits.{IsLed};
ghost use Rattle.machine_defs.specs.State.{Content, Mark, Undone, steps_to};
ghost use Rattle.machine_defs.specs.Marking.{IsMark as IsToldMark, HasMark as HasToldMark, with_mark, back_to, IsLastUndone, CanRedo, forth_to, since};
ghost use Rattle.machine_defs.specs.Difference.{Difference, IsDifference, AreDifferences, taken_back};
ghost use Rattle.machine_defs.specs.Kept.{IsLawfulContent, IsLawfulState};
ghost use Rattle.journal_laws.specs.Following.{Follows, all_put_forward, all_taken_back};
ghost use Rattle.trail_laws.specs.Trails.{Ahead, Trail, empty_trail, noted, marked, undo_at, back, forth, IsMark, HasMark, IsLastAhead, CanGoForth, place_of, steps_since, steps_ahead, IsOrdered};
ghost use Rattle.trail_laws.specs.Told.{undone_of, told, before_steps, after_steps, IsTraced};

/// The trail without steps and marks tells a state without past and marks.
///
/// For whoever makes a map: its first state.
pub fn trail_begins()
    ensures told { (now : Content) → told now empty_trail ≡ record { present = now; past = []; marks = []; undone = [] } }
    ensures kept { (now : Content) → IsLawfulContent now → IsTraced now empty_trail }
{}

/// Where a mark stands, a step to a content that follows the present one, noted as their difference, is told as the state
/// that a changing line makes: the present content comes to the past.
///
/// For whoever changes a map while a mark stands, with what `journal_laws` says of the difference.
pub fn step_is_noted()
    ensures told { (now next : Content) (t : Trail) (s : Difference) → IsTraced now t → IsOrdered t → IsLawfulContent next
        → Follows now next → IsDifference now next s → t.standing ≢ 0 → told next (noted t s) ≡ steps_to (told now t) next }
    ensures kept { (now next : Content) (t : Trail) (s : Difference) → IsTraced now t → IsOrdered t → IsLawfulContent next
        → Follows now next → IsDifference now next s → t.standing ≢ 0 → IsTraced next (noted t s) }
{}

/// Where no mark stands, a step is not noted, and the state is told without it.
///
/// For whoever changes a map while no mark stands: any lawful content may come next.
pub fn step_without_mark()
    ensures told { (now next : Content) (t : Trail) → IsTraced now t → IsOrdered t → t.standing ≡ 0 → IsLawfulContent next
        → told next t ≡ steps_to (told now t) next }
    ensures kept { (now next : Content) (t : Trail) → IsTraced now t → IsOrdered t → t.standing ≡ 0 → IsLawfulContent next
        → IsTraced next t }
{}

/// A mark that was set is told with a whole copy of the present content.
///
/// For whoever sets a mark. That the name is a new one is asked by `IsOrdered` of the trail with the mark, and not here.
pub fn mark_is_set()
    ensures told { (now : Content) (t : Trail) (name : List ℕ) → IsTraced now t → IsOrdered t
        → told now (marked t name) ≡ with_mark (told now t) name }
    ensures kept { (now : Content) (t : Trail) (name : List ℕ) → IsTraced now t → IsOrdered t → IsTraced now (marked t name) }
{}

/// With the steps since a mark taken back, the present content is the mark's copy, and the trail taken back to the mark
/// tells the state that an undo makes.
///
/// For whoever undoes: the cursors move, the undo is kept, the steps are taken back, and nothing else is to be done.
pub fn undo_goes_back()
    ensures mark { (now : Content) (t : Trail) (name : List ℕ) (k : ℕ) → IsOrdered t → IsMark t name k
        → (mark : Mark) × IsToldMark (told now t).marks name k mark }
    ensures copy { (now : Content) (t : Trail) (name : List ℕ) (k : ℕ) (mark : Mark) → IsTraced now t → IsOrdered t
        → IsToldMark (told now t).marks name k mark → mark.content ≡ before_steps now t k }
    ensures told { (now : Content) (t : Trail) (name : List ℕ) (k : ℕ) (mark : Mark) → IsTraced now t → IsOrdered t
        → IsToldMark (told now t).marks name k mark
        → told (before_steps now t k) (back t k) ≡ back_to (told now t) k mark }
    ensures kept { (now : Content) (t : Trail) (name : List ℕ) (k : ℕ) → IsTraced now t → IsOrdered t → IsMark t name k
        → IsTraced (before_steps now t k) (back t k) }
{}

/// The standing steps since a mark are the differences of the contents since the mark, of which `journal_laws` says that
/// there is one list.
///
/// For whoever shows a log: the steps that are kept are the ones to show.
pub fn steps_are_the_log()
    ensures { (now : Content) (t : Trail) (name : List ℕ) (k : ℕ) (mark : Mark) → IsTraced now t → IsOrdered t
        → IsToldMark (told now t).marks name k mark → AreDifferences (since (told now t) mark) (steps_since t k) }
{}

/// The marks that are told are the standing ones: mark k is told as mark k, with its name and its place.
///
/// For whoever looks a name up, or refuses one.
pub fn marks_are_told()
    ensures standing { (now : Content) (t : Trail) (name : List ℕ) (k : ℕ) (mark : Mark) → IsOrdered t
        → IsToldMark (told now t).marks name k mark → IsMark t name k }
    ensures place { (now : Content) (t : Trail) (name : List ℕ) (k : ℕ) (mark : Mark) → IsOrdered t
        → IsToldMark (told now t).marks name k mark → mark.place ≡ place_of t k }
    ensures names { (now : Content) (t : Trail) (name : List ℕ) → IsOrdered t
        → HasToldMark (told now t).marks name ↔ HasMark t name }
    ensures differ { (now : Content) (t : Trail) → IsOrdered t → AllPairs (λ m n. m.name ≢ n.name) (told now t).marks }
    ensures ascending { (now : Content) (t : Trail) → IsOrdered t → AllPairs (λ m n. m.place ≤ n.place) (told now t).marks }
{}

/// Every content that is told is a lawful map, those that undos took back too. The past is as long as the steps that stand,
/// no mark has a place after it, and each mark's copy is the content at its place, where the present content comes after the
/// past.
///
/// For whoever claims that the laws of a map hold in each state.
pub fn contents_are_kept()
    ensures kept { (now : Content) (t : Trail) → IsTraced now t → IsOrdered t → IsLawfulState (told now t) }
    ensures long { (now : Content) (t : Trail) → IsTraced now t → IsOrdered t → length (told now t).past ≡ t.at }
    ensures places { (now : Content) (t : Trail) → IsTraced now t → IsOrdered t
        → All (λ m. m.place ≤ length (told now t).past) (told now t).marks }
    ensures copies { (now : Content) (t : Trail) → IsTraced now t → IsOrdered t
        → All (λ m. slice_get ((told now t).past ++ now ∷ []) m.place ≡ Some m.content) (told now t).marks }
{}

/// The steps since a mark may be taken back one after another, the last first. With those from number j on taken back the
/// content is a lawful one of the past, or the present one, and step j leads from it to the content one step later. The
/// default e stands for no step, since j is within the list.
///
/// For whoever undoes a step at a time in place: each edit fits the rows that it is taken back from.
pub fn steps_are_taken_back()
    ensures kept { (now : Content) (t : Trail) (name : List ℕ) (k j : ℕ) → IsTraced now t → IsOrdered t → IsMark t name k
        → j ≤ length (steps_since t k) → IsLawfulContent (all_taken_back (drop j (steps_since t k)) now) }
    ensures there { (now : Content) (t : Trail) (name : List ℕ) (k j : ℕ) → IsTraced now t → IsOrdered t → IsMark t name k
        → j ≤ length (steps_since t k) → slice_get ((told now t).past ++ now ∷ []) (place_of t k + j)
        ≡ Some (all_taken_back (drop j (steps_since t k)) now) }
    ensures follows { (now : Content) (t : Trail) (name : List ℕ) (k j : ℕ) → IsTraced now t → IsOrdered t → IsMark t name k
        → j < length (steps_since t k)
        → Follows (all_taken_back (drop j (steps_since t k)) now) (all_taken_back (drop (j + 1) (steps_since t k)) now) }
    ensures differ { (now : Content) (t : Trail) (name : List ℕ) (k j : ℕ) (e : Difference) → IsTraced now t → IsOrdered t
        → IsMark t name k → j < length (steps_since t k)
        → IsDifference (all_taken_back (drop j (steps_since t k)) now) (all_taken_back (drop (j + 1) (steps_since t k)) now)
        (slice_index_or (steps_since t k) j e) }
    ensures led { (now : Content) (t : Trail) (name : List ℕ) (k j : ℕ) (e : Difference) → IsTraced now t → IsOrdered t
        → IsMark t name k → j < length (steps_since t k)
        → IsLed (all_taken_back (drop j (steps_since t k)) now).kind (all_taken_back (drop j (steps_since t k)) now).dim
        (slice_index_or (steps_since t k) j e).edit (all_taken_back (drop j (steps_since t k)) now).rows
        (all_taken_back (drop (j + 1) (steps_since t k)) now).rows }
    ensures back { (now : Content) (t : Trail) (name : List ℕ) (k j : ℕ) (e : Difference) → IsTraced now t → IsOrdered t
        → IsMark t name k → j < length (steps_since t k) → all_taken_back (drop j (steps_since t k)) now
        ≡ taken_back (slice_index_or (steps_since t k) j e) (all_taken_back (drop (j + 1) (steps_since t k)) now) }
{}

/// The undos that are told are those that can be taken back, in their order: the last one is told as the last, under the
/// name of the mark that it went to. And there is one last undo.
///
/// For whoever looks for the undo that a name takes back, or refuses one.
pub fn undones_are_told()
    ensures last { (now : Content) (t : Trail) (name : List ℕ) (others : List Undone) (last : Undone) → IsOrdered t
        → IsLastUndone (told now t).undone name others last
        → (befores : List Ahead) × (u : Ahead) × IsLastAhead t name befores u × (others ≡ map (undone_of now t) befores) × (last ≡ undone_of now t u) }
    ensures told { (now : Content) (t : Trail) (name : List ℕ) (others : List Ahead) (last : Ahead) → IsOrdered t
        → IsLastAhead t name others last
        → IsLastUndone (told now t).undone name (map (undone_of now t) others) (undone_of now t last) }
    ensures names { (now : Content) (t : Trail) (name : List ℕ) → IsOrdered t → CanRedo (told now t).undone name ↔ CanGoForth t name }
    ensures one { (t : Trail) (name other : List ℕ) (befores others : List Ahead) (u v : Ahead) → IsLastAhead t name befores u
        → IsLastAhead t other others v → (befores ≡ others) × (u ≡ v) }
{}

/// With the steps that the last undo took back put forward, and its cursors put back, the trail tells the state that a redo
/// makes.
///
/// For whoever takes an undo back: the steps are put forward, the cursors move, and nothing else is to be done.
pub fn redo_goes_forth()
    ensures told { (now : Content) (t : Trail) (name : List ℕ) (others : List Ahead) (last : Ahead) → IsTraced now t → IsOrdered t
        → IsLastAhead t name others last
        → told (after_steps now t last) (forth t others last) ≡ forth_to (map (undone_of now t) others) (undone_of now t last) }
    ensures kept { (now : Content) (t : Trail) (name : List ℕ) (others : List Ahead) (last : Ahead) → IsTraced now t → IsOrdered t
        → IsLastAhead t name others last → IsTraced (after_steps now t last) (forth t others last) }
    ensures ordered { (t : Trail) (name : List ℕ) (others : List Ahead) (last : Ahead) → IsOrdered t → IsLastAhead t name others last
        → IsOrdered (forth t others last) }
{}

/// The steps that the last undo took back may be put forward one after another, the first one first. With the first j of
/// them put forward the content is a lawful one, and step j leads from it to the content one step later. The default e stands
/// for no step, since j is within the list.
///
/// For whoever puts a step forward at a time in place: each edit fits the rows that it is put forward on.
pub fn steps_are_put_forward()
    ensures kept { (now : Content) (t : Trail) (name : List ℕ) (others : List Ahead) (last : Ahead) (j : ℕ) → IsTraced now t → IsOrdered t
        → IsLastAhead t name others last → j ≤ length (steps_ahead t last)
        → IsLawfulContent (all_put_forward (take j (steps_ahead t last)) now) }
    ensures follows { (now : Content) (t : Trail) (name : List ℕ) (others : List Ahead) (last : Ahead) (j : ℕ) → IsTraced now t → IsOrdered t
        → IsLastAhead t name others last → j < length (steps_ahead t last)
        → Follows (all_put_forward (take j (steps_ahead t last)) now) (all_put_forward (take (j + 1) (steps_ahead t last)) now) }
    ensures differ { (now : Content) (t : Trail) (name : List ℕ) (others : List Ahead) (last : Ahead) (j : ℕ) (e : Difference) → IsTraced now t
        → IsOrdered t → IsLastAhead t name others last → j < length (steps_ahead t last)
        → IsDifference (all_put_forward (take j (steps_ahead t last)) now) (all_put_forward (take (j + 1) (steps_ahead t last)) now)
        (slice_index_or (steps_ahead t last) j e) }
{}

/// An undo is the last one that can be taken back, under the name of the mark that it went to. It took back the steps since
/// the mark, and taken back itself it leaves everything as it was before.
///
/// For whoever undoes and then redoes, or has to give an undo up.
pub fn undone_again()
    ensures last { (t : Trail) (name : List ℕ) (k : ℕ) → IsOrdered t → IsMark t name k → IsLastAhead (back t k) name t.undone (undo_at t k) }
    ensures steps { (t : Trail) (k : ℕ) → steps_ahead (back t k) (undo_at t k) ≡ steps_since t k }
    ensures trail { (t : Trail) (k : ℕ) → forth (back t k) t.undone (undo_at t k) ≡ t }
    ensures content { (now : Content) (t : Trail) (name : List ℕ) (k : ℕ) → IsTraced now t → IsOrdered t → IsMark t name k
        → after_steps (before_steps now t k) (back t k) (undo_at t k) ≡ now }
{}
