//! Going back to a mark, and taking that back.
ghost use Rattle.std.specs.Prelude.{◌≡◌, List, OnOk, OnErr};
ghost use Rattle.machine_defs.specs.Script.{Undo, Redo};
ghost use Rattle.journal_laws.specs.Following.{all_taken_back};
ghost use Rattle.trail_laws.specs.Trails.{Ahead, IsLastAhead, CanGoForth, steps_ahead, forth};
ghost use Rattle.valued_map.specs.Undoing.{AreStepsTo, HasRoomFor};
ghost use Rattle.map_core.specs.Calls.{Does};

use crate::map::Map;
use crate::note::see_order;
use attr_rules::Hook;
use map_kind::{Done, Kind, Refused};
use std::alloc::{AllocError, Global};
use undo_journal::Journal;
use valued_map::ValuedMap;

impl<'h, K: Kind, H: Hook, const DIM: usize> Map<'h, K, H, DIM> {
    /// Goes back to the mark of this name: links, numbers of darts, values and rules are as they stood when it was set. The
    /// mark stays, and those before it; later ones are gone. Until the next step or mark `redo` takes the undo back. It costs
    /// what the steps since the mark changed, and the cells of these darts where a dimension has a rule, times a logarithm.
    /// Where memory is wanting, nothing has changed.
    ///
    /// Refused as `NoMark` exactly where no mark has the name.
    pub fn undo(&mut self, alloc: Global, name: &str) -> Result<Done, Refused>
        ensures hook { self.new.hook ≡ self.old.hook }
        ensures does { Does (H.hook self.old.hook) self.old.state (Undo name.now) result self.new.state }
    {
        see_order(&self.journal);
        self.journal.back_to(name)?;
        match take_ahead_back(alloc, &mut self.present, &self.journal, name) {
            Ok(()) => Ok(Done::NONE),
            Err(_) => {
                give_up(&mut self.journal, name);
                Err(Refused::NoMemory)
            }
        }
    }

    /// Takes the last undo back, which went to the mark of this name: everything is as it stood before it, marks too, and the
    /// undos before it can be taken back as before. It costs what the steps that it took back changed, and the cells of these
    /// darts where a dimension has a rule, times a logarithm, beside room for darts that live again. Where memory is wanting,
    /// nothing has changed.
    ///
    /// Refused as `NoRedo` exactly where no undo was made since the last step or mark that was not taken back, or where the
    /// last of them went to a mark of another name.
    pub fn redo(&mut self, alloc: Global, name: &str) -> Result<Done, Refused>
        ensures hook { self.new.hook ≡ self.old.hook }
        ensures does { Does (H.hook self.old.hook) self.old.state (Redo name.now) result self.new.state }
    {
        see_order(&self.journal);
        match self.journal.steps_ahead(name) {
            Ok(steps) => self.present.put_forward(alloc, steps)?,
            Err(refusal) => return Err(Refused::Line(refusal)),
        }
        match self.journal.forward(name) {
            Ok(()) => Ok(Done::NONE),
            Err(refusal) => Err(Refused::Line(refusal)),
        }
    }
}

/// Takes from a map the steps that the last undo of its journal took back. Where memory is wanting, the map has not changed.
fn take_ahead_back<K: Kind, const DIM: usize>(
    alloc: Global,
    present: &mut ValuedMap<K, DIM>,
    journal: &Journal,
    name: &str,
) -> Result<(), AllocError>
    requires stands { CanGoForth journal.now.trail name.now }
    requires steps { (others : List Ahead) → (last : Ahead) → IsLastAhead journal.now.trail name.now others last
        → AreStepsTo present.old.content (steps_ahead journal.now.trail last) }
    requires room { (others : List Ahead) → (last : Ahead) → IsLastAhead journal.now.trail name.now others last
        → HasRoomFor present.old.content (steps_ahead journal.now.trail last) present.old.places }
    ensures back { OnOk result ((others : List Ahead) × (last : Ahead) × IsLastAhead journal.now.trail name.now others last
        × (present.new.content ≡ all_taken_back (steps_ahead journal.now.trail last) present.old.content)) }
    ensures err { OnErr result (present.new.content ≡ present.old.content) }
    ensures places { present.new.places ≡ present.old.places }
{
    match journal.steps_ahead(name) {
        Ok(steps) => present.take_back(alloc, steps),
        Err(_) => unreachable!(),
    }
}

/// Gives up the last undo of a journal. It takes no memory, and cannot fail.
fn give_up(journal: &mut Journal, name: &str)
    requires { CanGoForth journal.old.trail name.now }
    ensures { (others : List Ahead) × (last : Ahead) × IsLastAhead journal.old.trail name.now others last
        × (journal.new.trail ≡ forth journal.old.trail others last) }
{
    match journal.forward(name) {
        Ok(()) => {}
        Err(_) => unreachable!(),
    }
}
