ghost use Rattle.std.specs.Prelude.{◌≡◌, ℕ, List, true, ◌+◌, ◌≤◌, ◌<◌, ◌↔◌, Some, length, slice_get, IsOk, IsErr, IfOk, IfErr, OnOk, OnErr, IfSome, IsNone, IsErrOf};
ghost use Rattle.std.specs.Option.{option_map};
ghost use Rattle.machine_defs.specs.Script.{is_name};
ghost use Rattle.trail_laws.specs.Trails.{Book, Ahead as Undo, empty_trail, standing_marks, mark_names, IsMark, HasMark, IsLastAhead, CanGoForth, place_of, steps_since, steps_ahead, noted, marked, back, forth, IsAhead, IsOrdered};

use crate::ahead::Ahead;
use crate::marks::Marks;
use crate::step::Step;
use map_kind::{Refusal, Refused};
use std::alloc::{AllocError, Global};
use std::marker::Model;

/// The steps of a map since its first mark, and marks with places among them. What an undo took back stays stored
/// behind the steps and marks that stand, until the next step or mark, and the undos that can be taken back are kept, the
/// last one last. It is seen as its trail, beside the number of steps that can be noted without further memory. A look-up of
/// a name costs the logarithm of the number of marks, whatever the names are.
#[derive(Drop)]
pub struct Journal {
    steps: Vec<Step>,
    // So many of the steps stand.
    at: usize,
    // The place of a mark is how many steps stood when it was set.
    marks: Marks,
    // So many of the marks stand.
    standing: usize,
    // The undos since the last step or mark that were not taken back.
    undone: Vec<Ahead>,
}

impl Model for Journal {
    ghost use Rattle.std.specs.Prelude.{◌-◌, vec_capacity};
    ghost use Rattle.trail_laws.specs.Trails.{Book, IsOrdered};
    ghost use Rattle.undo_journal.specs.Entries.{trail_of};

    ghost Value = { Book };

    ghost view = { λ j. record { trail = trail_of j.steps.items j.at j.marks j.standing j.undone.items; room = vec_capacity j.steps - j.at } };

    ghost invariant = { λ j. IsOrdered (trail_of j.steps.items j.at j.marks j.standing j.undone.items) };
}

impl Journal {
    /// The journal without steps and marks, where no undo can be taken back. It takes no memory.
    pub fn new(alloc: Global) -> Journal
        ensures trail { result.trail ≡ empty_trail }
        ensures room { result.room ≡ 0 }
    {
        Journal {
            steps: Vec::new(alloc),
            at: 0,
            marks: Marks::new(alloc),
            standing: 0,
            undone: Vec::new(alloc),
        }
    }

    /// How many marks stand. Here can be read what holds of every trail.
    pub fn mark_count(&self) -> usize
        ensures count { result ≡ length (standing_marks self.now.trail) }
        ensures standing { result ≡ self.now.trail.standing }
        ensures ordered { IsOrdered self.now.trail }
    {
        self.standing
    }

    /// The name of a standing mark by its number, from 0, oldest first; none exactly where there is no such mark. It is a name of
    /// the grammar of lines.
    pub fn mark_name(&self, place: usize) -> Option<&str>
        ensures name { option_map (λ name. name.now) result ≡ slice_get (mark_names self.now.trail) place }
        ensures named { IfSome result (λ name. is_name name.now ≡ true) }
    {
        if place >= self.standing {
            return None;
        }
        self.marks.name_of(place)
    }

    /// The number of the standing mark of this name; none exactly where no standing mark has it.
    fn standing_mark(&self, name: &str) -> Option<usize>
        ensures found { IfSome result (λ k. IsMark self.now.trail name.now k) }
        ensures within { IfSome result (λ k. k < self.now.trail.standing) }
        ensures none { IsNone result ↔ (HasMark self.now.trail name.now → ⊥) }
    {
        let k = self.marks.number_of(name)?;
        if k < self.standing { Some(k) } else { None }
    }

    /// How many steps stood when a standing mark was set.
    fn place(&self, mark: usize) -> usize
        requires { mark < self.now.trail.standing }
        ensures place { result ≡ place_of self.now.trail mark }
        ensures within { result ≤ self.now.trail.at }
        ensures ordered { IsOrdered self.now.trail }
    {
        self.marks.place_of(mark)
    }

    /// Sets a mark of this name behind the steps that stand. The name is one of the grammar of lines: 1 to 32 small letters, digits
    /// and underscores. What was taken back is gone, and no undo can be taken back. `MarkTaken` comes exactly where a standing
    /// mark has the name. A refusal leaves the journal as it was. It costs a look-up of the name, and what was taken back.
    pub fn mark(&mut self, name: &str) -> Result<(), Refused>
        requires { is_name name.now ≡ true }
        ensures ok { OnOk result (self.new.trail ≡ marked self.old.trail name.now) }
        ensures room { self.new.room ≡ self.old.room }
        ensures refused { (r : Refusal) → IsErrOf result (Refused.Line r) ↔ ((r ≡ Refusal.MarkTaken) × HasMark self.old.trail name.now) }
        ensures err { OnErr result (self.new ≡ self.old) }
    {
        if self.standing_mark(name).is_some() {
            return Err(Refused::Line(Refusal::MarkTaken));
        }
        let at = self.at;
        self.marks.replace_behind(self.standing, name, at)?;
        self.steps.truncate(at);
        self.undone.clear();
        self.standing = self.marks.len();
        Ok(())
    }

    /// Makes room for one step. A refusal leaves the journal as it was.
    pub fn reserve(&mut self) -> Result<(), AllocError>
        ensures trail { self.new.trail ≡ self.old.trail }
        ensures ok { OnOk result (1 ≤ self.new.room) }
        ensures room_stays { self.old.room ≤ self.new.room }
        ensures had_room { 1 ≤ self.old.room → IsOk result }
        ensures err { OnErr result (self.new ≡ self.old) }
    {
        if self.at < self.steps.len() {
            return Ok(());
        }
        self.steps.reserve(1)
    }

    /// Notes a step behind those that stand. What was taken back is gone, and no undo can be taken back. It takes no memory:
    /// room was reserved. It costs what was taken back.
    pub fn note(&mut self, step: Step)
        requires { 1 ≤ self.old.room }
        ensures trail { self.new.trail ≡ noted self.old.trail step }
        ensures room { self.new.room + 1 ≡ self.old.room }
    {
        self.steps.truncate(self.at);
        self.marks.truncate(self.standing);
        self.undone.truncate(0);
        self.steps.push_reserved(step);
        self.at = self.steps.len();
    }

    /// The standing steps since the mark of this name was set, oldest first. `NoMark` comes exactly where no standing
    /// mark has the name. It takes no memory, and costs a look-up of the name.
    pub fn entries_since(&self, name: &str) -> Result<&[Step], Refusal>
        ensures since { IfOk result (λ steps. (k : ℕ) × IsMark self.now.trail name.now k × (steps.now ≡ steps_since self.now.trail k)) }
        ensures unmarked { IsErr result ↔ (HasMark self.now.trail name.now → ⊥) }
        ensures refused { IfErr result (λ r. r ≡ Refusal.NoMark) }
    {
        match self.standing_mark(name) {
            Some(k) => Ok(&self.steps[self.place(k)..self.at]),
            None => Err(Refusal::NoMark),
        }
    }

    /// Goes back to the mark of this name, which stays: the steps since it was set and the later marks stand no longer, and
    /// the undo can be taken back. `NoMark` comes exactly where no standing mark has the name. Memory may be wanting for the
    /// undo that is kept. A refusal leaves the journal as it was. It costs a look-up of the name.
    pub fn back_to(&mut self, name: &str) -> Result<(), Refused>
        ensures back { OnOk result ((k : ℕ) × IsMark self.old.trail name.now k × (self.new.trail ≡ back self.old.trail k)) }
        ensures room { self.new.room + self.new.trail.at ≡ self.old.room + self.old.trail.at }
        ensures refused { (r : Refusal) → IsErrOf result (Refused.Line r) ↔ ((r ≡ Refusal.NoMark) × (HasMark self.old.trail name.now → ⊥)) }
        ensures err { OnErr result (self.new ≡ self.old) }
    {
        let Some(k) = self.standing_mark(name) else {
            return Err(Refused::Line(Refusal::NoMark));
        };
        let place = self.place(k);
        let undo = Ahead {
            mark: k,
            at: self.at,
            standing: self.standing,
        };
        self.undone.reserve(1)?;
        self.undone.push_reserved(undo);
        self.at = place;
        self.standing = k + 1;
        Ok(())
    }

    /// The last undo that can be taken back, where it went to a mark of this name; else none.
    fn last_undo(&self, name: &str) -> Option<Ahead>
        ensures last { IfSome result (λ last. (others : List Undo) × IsLastAhead self.now.trail name.now others last) }
        ensures ahead { IfSome result (λ last. IsAhead self.now.trail.steps self.now.trail.at self.now.trail.marks last) }
        ensures none { IsNone result ↔ (CanGoForth self.now.trail name.now → ⊥) }
    {
        let count = self.undone.len();
        if count == 0 {
            return None;
        }
        let last = self.undone[count - 1];
        let known = self.marks.name_of(last.mark)?;
        if known == name { Some(last) } else { None }
    }

    /// The steps that the last undo took back, oldest first, where it went to a mark of this name. `NoRedo` comes exactly
    /// where no undo can be taken back, or the last one went to a mark of another name. It takes no memory, and costs the
    /// length of the name.
    pub fn steps_ahead(&self, name: &str) -> Result<&[Step], Refusal>
        ensures ahead { IfOk result (λ steps. (others : List Undo) × (last : Undo) × IsLastAhead self.now.trail name.now others last
            × (steps.now ≡ steps_ahead self.now.trail last)) }
        ensures none { IsErr result ↔ (CanGoForth self.now.trail name.now → ⊥) }
        ensures refused { IfErr result (λ r. r ≡ Refusal.NoRedo) }
    {
        match self.last_undo(name) {
            Some(last) => Ok(&self.steps[self.at..last.at]),
            None => Err(Refusal::NoRedo),
        }
    }

    /// Takes the last undo back, where it went to a mark of this name: the steps and marks that it took back stand again, and
    /// the undos before it can be taken back as before. `NoRedo` comes exactly where no undo can be taken back, or the last
    /// one went to a mark of another name, and leaves the journal as it was. It takes no memory, and costs the length of the
    /// name.
    pub fn forward(&mut self, name: &str) -> Result<(), Refusal>
        ensures forth { OnOk result ((others : List Undo) × (last : Undo) × IsLastAhead self.old.trail name.now others last
            × (self.new.trail ≡ forth self.old.trail others last)) }
        ensures room { self.new.room + self.new.trail.at ≡ self.old.room + self.old.trail.at }
        ensures none { IsErr result ↔ (CanGoForth self.old.trail name.now → ⊥) }
        ensures refused { IfErr result (λ r. r ≡ Refusal.NoRedo) }
        ensures err { OnErr result (self.new ≡ self.old) }
    {
        match self.last_undo(name) {
            Some(last) => {
                self.at = last.at;
                self.standing = last.standing;
                self.undone.truncate(self.undone.len().saturating_sub(1));
                Ok(())
            }
            None => Err(Refusal::NoRedo),
        }
    }
}
