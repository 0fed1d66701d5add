//! Laws of the plain map machine and of the program's text, over the definitions alone.
#![tactic(auto)]

ghost use Rattle.std.specs.Prelude.{◌≡◌, ℕ, ◌≤◌, List, Some, IsSome};
ghost use Rattle.map_defs.specs.Refusal.{Refusal, number};
ghost use Rattle.map_defs.specs.Kind.{Kind};
ghost use Rattle.map_defs.specs.Values.{Value, Rule, Hook, meaning_of, AreWhole, IsRepresentable};
ghost use Rattle.map_defs.specs.Rows.{IsLive, links_of};
ghost use Rattle.map_defs.specs.Laws.{Laws};
ghost use Rattle.map_defs.specs.Carry.{AreCarried, AreEqualOnCells};
ghost use Rattle.map_defs.specs.Totals.{sum_share, NoSumLeaves};
ghost use Rattle.machine_defs.specs.Listing.{ListValue, ListsValues, listed_total};
ghost use Rattle.machine_defs.specs.State.{Content, State, Mark, value_at, with_born, empty_state};
ghost use Rattle.machine_defs.specs.Loading.{IsLoaded};
ghost use Rattle.machine_defs.specs.Kept.{KnowsRules, IsLawfulContent, IsLawfulState};
ghost use Rattle.machine_defs.specs.Script.{Line, Undo, Redo, Log};
ghost use Rattle.machine_defs.specs.Text.{Reply, Done, Logged, Refused};
ghost use Rattle.machine_defs.specs.Machine.{Step, Run, FailsFor, checks};
ghost use Rattle.machine_defs.specs.Outside.{Files, IsFront};
ghost use Rattle.machine_defs.specs.Program.{ProgramAnswer, Starts};
ghost use Rattle.machine_defs.specs.Difference.{Difference, AreDifferences};
ghost use Rattle.machine_defs.specs.Marking.{IsMark, since};
ghost use Rattle.journal_laws.specs.Following.{all_put_forward, all_taken_back};
ghost use Rattle.machine_laws.specs.Needs.{LineNeeds, ReplyNeeds};
ghost use Rattle.machine_laws.specs.Tracing.{AreTraced};

/// The refusal that a line gets is one whose condition holds, with the least number of all whose condition holds; and the
/// state is as it was. So a user can read the table of refusals line by line.
pub fn least_refusal()
    ensures holds { (hook : Hook) (s : State) (line : Line) (r : Refusal) (new : State) → Step hook s line (Refused r) new
        → FailsFor (checks hook s line) r }
    ensures least { (hook : Hook) (s : State) (line : Line) (r : Refusal) (new : State) → Step hook s line (Refused r) new →
        (q : Refusal) → FailsFor (checks hook s line) q → number r ≤ number q }
    ensures unchanged { (hook : Hook) (s : State) (line : Line) (r : Refusal) (new : State) → Step hook s line (Refused r) new
        → new ≡ s }
{}

/// A line is accepted only where none of its conditions of refusal holds.
pub fn accepted_without_refusal()
    ensures { (hook : Hook) (s : State) (line : Line) (reply : Reply) (new : State) → Step hook s line reply new →
        ((r : Refusal) → reply ≡ Refused r → ⊥) → (q : Refusal) → FailsFor (checks hook s line) q → ⊥ }
{}

/// A line has one reply, and leads to one state where the state has what the line needs. An edge in a combinatorial map and
/// a face in a generalized map need links that obey the laws; a cell that is removed or contracted needs them in both kinds,
/// and that its dart, if it lives, is not 0; a closing needs them too, and that 0 does not live; undo, and the reply of a log,
/// need that no two marks have one name; and the reply of `off` needs links that obey the laws. No other line needs anything,
/// and no other reply. Each state of a run has what all lines need. In a map that breaks the laws an edge or a face may leave
/// a link of a new dart open, and a walk across the cell, or around a boundary, may go on for ever, so that nothing tells a
/// link; and a dart may lie in two 0-cells, and so be a corner at two points.
pub fn one_step()
    ensures reply { (hook : Hook) (s : State) (line : Line) (one other : Reply) (new new' : State)
        → ReplyNeeds line s → Step hook s line one new → Step hook s line other new' → one ≡ other }
    ensures state { (hook : Hook) (s : State) (line : Line) (one other : Reply) (new new' : State)
        → LineNeeds line s → Step hook s line one new → Step hook s line other new' → new ≡ new' }
{}

/// One step of the machine keeps what every state keeps, and that each content can follow the one before it, whatever the
/// line: also one that no text writes, as a mark whose name has a space.
///
/// For whoever calls for a line, and writes no script.
pub fn steps_keep_the_laws()
    ensures laws { (hook : Hook) (s : State) (line : Line) (reply : Reply) (new : State) → IsLawfulState s
        → Step hook s line reply new → IsLawfulState new }
    ensures trace { (hook : Hook) (s : State) (line : Line) (reply : Reply) (new : State) → IsLawfulState s → AreTraced s
        → Step hook s line reply new → AreTraced new }
{}

/// Every state of a run keeps what the first one keeps: each content is a lawful map, whose entries name live darts, with
/// equal values on each cell and none in a dimension without a rule; and each mark has a name of its own, and its copy is
/// the content at its place. The state without darts keeps it, and so does that of a mesh.
pub fn runs_keep_the_laws()
    ensures first { (k : Kind) (n : ℕ) → 2 ≤ n → IsLawfulState (empty_state k n) }
    ensures mesh { (k : Kind) (n : ℕ) (text : List ℕ) (start : State) → 2 ≤ n → IsLoaded k n text start → IsLawfulState start }
    ensures each { (hook : Hook) (s : State) (lines : List (List ℕ)) (replies : List Reply) (new : State) → IsLawfulState s
        → Run hook s lines replies new → IsLawfulState new }
{}

/// Every rule that a state of a run keeps, in the present content, in the past and in marks, is one of the tables, or one that
/// the hook knows: no line sets another one, and none is lost by going back.
///
/// For whoever hands in a hook: no rule ever falls back to `first` or `copy` for want of a name.
pub fn runs_keep_known_rules()
    ensures first { (hook : Hook) (k : Kind) (n : ℕ) → KnowsRules hook (empty_state k n) }
    ensures mesh { (hook : Hook) (k : Kind) (n : ℕ) (text : List ℕ) (start : State) → IsLoaded k n text start → KnowsRules hook start }
    ensures step { (hook : Hook) (s : State) (line : Line) (reply : Reply) (new : State) → KnowsRules hook s
        → Step hook s line reply new → KnowsRules hook new }
    ensures each { (hook : Hook) (s : State) (lines : List (List ℕ)) (replies : List Reply) (new : State) → KnowsRules hook s
        → Run hook s lines replies new → KnowsRules hook new }
{}

/// In every state of a run each content that is kept follows the one before it, as `Follows` says: kind, dimension and places
/// stay, numbers of darts go on, no dart that ended lives again, and none was born and ended between the two.
pub fn runs_keep_the_trace()
    ensures first { (k : Kind) (n : ℕ) → AreTraced (empty_state k n) }
    ensures mesh { (k : Kind) (n : ℕ) (text : List ℕ) (start : State) → IsLoaded k n text start → AreTraced start }
    ensures each { (hook : Hook) (s : State) (lines : List (List ℕ)) (replies : List Reply) (new : State) → IsLawfulState s
        → AreTraced s → Run hook s lines replies new → AreTraced new }
{}

/// The steps that a log tells since a mark, taken back from the present content, the last first, lead to the mark's copy;
/// and these put forward from the copy lead to the present content. So undo leads where the log's steps taken back do.
///
/// For whoever keeps the steps in place of the contents: undo needs no copy.
pub fn undo_leads_back()
    ensures back { (s : State) (name : List ℕ) (k : ℕ) (mark : Mark) (steps : List Difference) → IsLawfulState s → AreTraced s
        → IsMark s.marks name k mark → AreDifferences (since s mark) steps → all_taken_back steps s.present ≡ mark.content }
    ensures forward { (s : State) (name : List ℕ) (k : ℕ) (mark : Mark) (steps : List Difference) → IsLawfulState s → AreTraced s
        → IsMark s.marks name k mark → AreDifferences (since s mark) steps → all_put_forward steps mark.content ≡ s.present }
    ensures undone { (hook : Hook) (s : State) (name : List ℕ) (steps : List Difference) (reply : Reply) (same new : State)
        → IsLawfulState s → AreTraced s → Step hook s (Log name) (Logged steps) same → Step hook s (Undo name) reply new
        → all_taken_back steps s.present ≡ new.present }
{}

/// A redo under the name of the undo just made is accepted, and gives back the whole state as it stood before the undo: the
/// present content, the past, the marks, and the undos that could be taken back then.
///
/// For whoever offers an undo to somebody who may think better of it: nothing is lost by it.
pub fn redo_gives_back()
    ensures accepted { (hook : Hook) (s mid new : State) (name : List ℕ) (reply : Reply) → Step hook s (Undo name) (Done 0 0) mid
        → Step hook mid (Redo name) reply new → reply ≡ Done 0 0 }
    ensures same { (hook : Hook) (s mid new : State) (name : List ℕ) (reply : Reply) → Step hook s (Undo name) (Done 0 0) mid
        → Step hook mid (Redo name) reply new → new ≡ s }
{}

/// The program has one text and one status for its words and files.
pub fn one_answer()
    ensures text { (hook : Hook) (words : List (List ℕ)) (files : Files) (one other : List ℕ) (status status' : ℕ) →
        ProgramAnswer hook words files one status → ProgramAnswer hook words files other status' → one ≡ other }
    ensures status { (hook : Hook) (words : List (List ℕ)) (files : Files) (one other : List ℕ) (status status' : ℕ) →
        ProgramAnswer hook words files one status → ProgramAnswer hook words files other status' → status ≡ status' }
{}

/// A text with which the program's text starts, as `Starts` says it, is a front of the program's one text.
pub fn one_front()
    ensures { (hook : Hook) (words : List (List ℕ)) (files : Files) (front text : List ℕ) (status : ℕ) →
        Starts hook words files front → ProgramAnswer hook words files text status → IsFront front text }
{}

/// Under the rule `sum share` the values that a listing shows in a dimension add up to the same before and after a change of
/// links by which no dart dies, where only live darts have values and no sum of parts leaves 64 bits.
pub fn listed_totals_stay()
    ensures { (i : ℕ) (hook : Hook) (old new : Content) (values after : List ListValue)
        → old.kind ≡ new.kind → Laws old.kind (links_of old.rows) → Laws new.kind (links_of new.rows)
        → ((x : ℕ) → IsLive old.rows x → IsLive new.rows x)
        → ((x : ℕ) → IsSome (value_at old i x) → IsLive old.rows x)
        → ((x : ℕ) → IsSome (value_at new i x) → IsLive new.rows x)
        → AreEqualOnCells old.kind i (links_of old.rows) (IsLive old.rows) (value_at old i)
        → AreCarried old.kind i (sum_share hook) (links_of old.rows) (IsLive old.rows) (value_at old i)
        (links_of new.rows) (IsLive new.rows) (value_at new i)
        → NoSumLeaves old.kind i (sum_share hook) (links_of old.rows) (IsLive old.rows) (value_at old i)
        (links_of new.rows) (IsLive new.rows)
        → ListsValues old values → ListsValues new after → listed_total i values ≡ listed_total i after }
{}

/// New darts that are linked among each other alone, as `polygon` and `dart` make them, change no value. In each dimension
/// the values after them are carried from those before, where these are within 64 bits: under each rule of the table if the
/// hook leaves whole what is not split, and under `sum share` whatever the hook does. And a listing shows the same values,
/// so that each total stays.
///
/// For whoever follows the total of a dimension through a script, line by line: of the lines that change links the machine
/// says itself that values are carried, and here it is said of these two.
pub fn born_darts_keep_values()
    ensures carried { (hook : Hook) (rule : Rule) (i : ℕ) (c : Content) (born : List (List ℕ)) → IsLawfulContent c
        → IsLawfulContent (with_born c born) → AreWhole hook
        → ((d : ℕ) (v : Value) → value_at c i d ≡ Some v → IsRepresentable v)
        → AreCarried c.kind i (meaning_of hook rule) (links_of c.rows) (IsLive c.rows) (value_at c i)
        (links_of (with_born c born).rows) (IsLive (with_born c born).rows) (value_at (with_born c born) i) }
    ensures shared { (hook : Hook) (i : ℕ) (c : Content) (born : List (List ℕ)) → IsLawfulContent c
        → IsLawfulContent (with_born c born) → ((d : ℕ) (v : Value) → value_at c i d ≡ Some v → IsRepresentable v)
        → AreCarried c.kind i (sum_share hook) (links_of c.rows) (IsLive c.rows) (value_at c i)
        (links_of (with_born c born).rows) (IsLive (with_born c born).rows) (value_at (with_born c born) i) }
    ensures listed { (c : Content) (born : List (List ℕ)) (values after : List ListValue) → IsLawfulContent c
        → IsLawfulContent (with_born c born) → ListsValues c values → ListsValues (with_born c born) after → values ≡ after }
{}
