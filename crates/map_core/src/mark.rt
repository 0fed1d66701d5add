//! Marks, and the steps since one.
ghost use Rattle.std.specs.Prelude.{◌≡◌, ℕ, true, length, IfOk};
ghost use Rattle.machine_defs.specs.State.{Mark as SetMark};
ghost use Rattle.machine_defs.specs.Marking.{IsMark};
ghost use Rattle.machine_defs.specs.Kept.{IsLawfulState, KnowsRules};
ghost use Rattle.machine_defs.specs.Script.{Mark, Log, is_name};
ghost use Rattle.machine_defs.specs.Text.{Logged};
ghost use Rattle.journal_laws.specs.Following.{all_put_forward, all_taken_back};
ghost use Rattle.machine_laws.specs.Tracing.{AreTraced};
ghost use Rattle.map_core.specs.Calls.{Does, AnswersAtOnce};

use crate::map::Map;
use crate::note::see_order;
use attr_rules::Hook;
use map_kind::{Done, Kind, Refusal, Refused};
use undo_journal::Step;

impl<'h, K: Kind, H: Hook, const DIM: usize> Map<'h, K, H, DIM> {
    /// How many marks stand. It takes no memory. Here can be read what the type keeps of the whole state: the present
    /// content, those of the past and each mark's copy are lawful maps with one value or none on each cell; no two marks
    /// have one name, a later mark has no lesser place, and each mark's copy is the content at its place; and each content
    /// follows the one before it: kind, dimension and places stay, numbers of darts go on, and no dart that ended lives again.
    /// So it is with what stood before each undo that can be taken back. And the hook knows each rule of all of them.
    ///
    /// For whoever rests on a law that asks for a lawful state, as those of undo and redo, whatever calls led to it.
    pub fn mark_count(&self) -> usize
        ensures count { result ≡ length self.now.state.marks }
        ensures kept { IsLawfulState self.now.state }
        ensures traced { AreTraced self.now.state }
        ensures rules { KnowsRules (H.hook self.now.hook) self.now.state }
    {
        self.journal.mark_count()
    }

    /// Sets a mark of this name on the present state, for `undo` to go back to and `log` to tell what was done since. It
    /// costs the length of the name, and what undos took back, which is then gone. The name is one of the grammar of lines:
    /// 1 to 32 small letters, digits and underscores.
    ///
    /// Refused as `MarkTaken` exactly where a mark has the name.
    pub fn mark(&mut self, name: &str) -> Result<Done, Refused>
        requires { is_name name.now ≡ true }
        ensures hook { self.new.hook ≡ self.old.hook }
        ensures does { Does (H.hook self.old.hook) self.old.state (Mark name.now) result self.new.state }
    {
        see_order(&self.journal);
        self.journal.mark(name)?;
        Ok(Done::NONE)
    }

    /// What each step changed since the mark of this name was set, oldest first. Taken back from the present content, the
    /// last first, the steps lead to the mark's copy, where an undo leads; and put forward from the copy they lead to the
    /// present content. It takes no memory, and costs a look-up of the name.
    ///
    /// Refused as `NoMark` exactly where no mark has the name.
    pub fn log(&self, name: &str) -> Result<&[Step], Refusal>
        ensures answers { AnswersAtOnce (H.hook self.now.hook) self.now.state (Log name.now) (λ steps. Logged steps.now) result }
        ensures back { IfOk result (λ steps. (k : ℕ) → (mark : SetMark) → IsMark self.now.state.marks name.now k mark
            → all_taken_back steps.now self.now.state.present ≡ mark.content) }
        ensures forward { IfOk result (λ steps. (k : ℕ) → (mark : SetMark) → IsMark self.now.state.marks name.now k mark
            → all_put_forward steps.now mark.content ≡ self.now.state.present) }
    {
        see_order(&self.journal);
        match self.journal.entries_since(name) {
            Ok(steps) => Ok(steps),
            Err(refusal) => Err(refusal),
        }
    }
}
