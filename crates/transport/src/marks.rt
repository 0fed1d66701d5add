ghost use Rattle.std.specs.Prelude.{◌≡◌, ℕ, ◌+◌, ◌<◌, ◌≤◌, cond, false, length, slice_index_or, nat_eq, IfOk, IfSome, IsNone};
ghost use Rattle.transport.specs.Marks.{IsMarkedAt, mark_at, is_among};

use map_kind::Dart;
use std::alloc::{AllocError, Global};
use std::marker::Model;

/// The darts from a number on, each with a mark: whether its cell is wanted, and not found yet.
#[derive(Drop)]
pub(crate) struct Marks {
    first: u32,
    marks: Vec<bool>,
}

impl Model for Marks {
    ghost use Rattle.std.specs.Prelude.{◌+◌, ◌<◌, ◌≤◌, ◌^◌, length};
    ghost use Rattle.transport.specs.Marks as shown;

    ghost Value = { shown.Marks };

    ghost view = { λ m. record { first = m.first; marks = m.marks.items } };

    ghost invariant = { λ m. (0 < m.first) × (m.first + length m.marks.items ≤ 2 ^ 32) };
}

impl Marks {
    /// The darts from the number `first` to the number `last`, none of which is marked.
    pub(crate) fn new(alloc: Global, first: u32, last: u32) -> Result<Self, AllocError>
        requires { 0 < first }
        ensures first { IfOk result (λ marks. marks.first ≡ first) }
        ensures last { IfOk result (λ marks. last < first + length marks.marks) }
        ensures unmarked { IfOk result (λ marks. (place : ℕ) → mark_at marks place ≡ false) }
    {
        let count = last.saturating_sub(first) as usize + 1;
        let marks = vec![in alloc; false; count]?;
        Ok(Marks { first, marks })
    }

    /// How many darts there are.
    pub(crate) fn len(&self) -> usize
        ensures { result ≡ length self.now.marks }
    {
        self.marks.len()
    }

    /// The dart at a place, if it is marked.
    pub(crate) fn marked(&self, place: usize) -> Option<Dart>
        requires { place < length self.now.marks }
        ensures some { IfSome result (λ dart. IsMarkedAt self.now place × (dart ≡ place + self.now.first)) }
        ensures none { IsNone result → IsMarkedAt self.now place → ⊥ }
    {
        if !self.marks[place] {
            return None;
        }
        Dart::new(self.first + place as u32)
    }

    /// Gives each of some darts a mark or takes it away. Those that have no place here are passed over.
    pub(crate) fn put_all(&mut self, darts: &[Dart], mark: bool)
        ensures first { self.new.first ≡ self.old.first }
        ensures size { length self.new.marks ≡ length self.old.marks }
        ensures marks { (place : ℕ) → place < length self.old.marks
            → mark_at self.new place ≡ cond (is_among darts.now (place + self.old.first)) mark (mark_at self.old place) }
    {
        for dart in darts {
            self.put(*dart, mark);
        }
    }

    /// Gives a dart a mark or takes it away, if it has a place here.
    fn put(&mut self, dart: Dart, mark: bool)
        ensures first { self.new.first ≡ self.old.first }
        ensures size { length self.new.marks ≡ length self.old.marks }
        ensures marks { (place : ℕ) → place < length self.old.marks
            → mark_at self.new place ≡ cond (nat_eq (place + self.old.first) dart) mark (mark_at self.old place) }
    {
        let Some(place) = self.place(dart) else {
            return;
        };
        self.marks[place] = mark;
    }

    /// The place of a dart, if it has one here.
    fn place(&self, dart: Dart) -> Option<usize>
        ensures some { IfSome result (λ place. (place < length self.now.marks) × (place + self.now.first ≡ dart)) }
        ensures none { IsNone result → (place : ℕ) → place < length self.now.marks → nat_eq (place + self.now.first) dart ≡ false }
    {
        let place = dart.number().checked_sub(self.first)? as usize;
        if place >= self.marks.len() {
            return None;
        }
        Some(place)
    }
}
