ghost use Rattle.std.specs.Prelude.{◌≡◌, ◌↔◌, ℕ, ◌+◌, ◌≤◌, ◌<◌, ◌^◌, nat_eq, cond, None, Some, length, IsTrue, IfOk, OnOk};
ghost use Rattle.std.specs.List.{list_any};
ghost use Rattle.transport.specs.declared.pieces.Piece.{Piece};
ghost use Rattle.transport.specs.Tallies.{told_of, count_of};
ghost use Rattle.transport.specs.Gathered.{shown, IsReady, IsMeeting};

use crate::by_id::{ById, FEW};
use crate::pieces::Piece;
use attr_pool::AttrId;
use std::alloc::{AllocError, Global};

/// A count for each id: at the id's place in the table, or where the table is too short for it, beside the table.
#[derive(Drop)]
pub(crate) struct Tally {
    pub(crate) table: Vec<u32>,
    pub(crate) counts: ById<u32>,
}

impl Tally {
    /// Nothing counted yet. The ids below `room` have places in the table.
    pub(crate) fn new(alloc: Global, room: usize) -> Result<Self, AllocError>
        ensures { IfOk result (λ tally. (id : ℕ) → count_of tally id ≡ 0) }
    {
        Ok(Tally {
            table: vec![in alloc; 0; room]?,
            counts: ById::new(alloc),
        })
    }

    /// How often an id was counted.
    pub(crate) fn count(&self, id: AttrId) -> u32
        ensures { result ≡ count_of self.now id }
    {
        match self.table.get(id.number() as usize) {
            Some(count) => *count,
            None => self.counts.get(id).unwrap_or(0),
        }
    }

    /// Counts an id once more.
    pub(crate) fn add(&mut self, id: AttrId) -> Result<(), AllocError>
        requires { count_of self.old id + 1 < 2 ^ 32 }
        ensures { OnOk result ((other : ℕ)
            → count_of self.new other ≡ cond (nat_eq id other) (count_of self.old other + 1) (count_of self.old other)) }
    {
        let count = self.count(id);
        let place = id.number() as usize;
        if place < self.table.len() {
            self.table[place] = count + 1;
            return Ok(());
        }
        self.counts.put(id, count + 1)
    }
}

/// In which cell each id was met last, as far as it is not forgotten: the first few pieces of the cell, which begin at
/// `start`, tell of their ids themselves, and of those of further pieces it is told here.
#[derive(Drop)]
pub(crate) struct LastMet {
    pub(crate) start: usize,
    pub(crate) cells: ById<usize>,
}

impl LastMet {
    /// No id was met yet, and there are no pieces.
    pub(crate) fn new(alloc: Global) -> Self
        ensures start { result.start ≡ 0 }
        ensures none { (id : ℕ) → told_of result.cells id ≡ None }
    {
        LastMet {
            start: 0,
            cells: ById::new(alloc),
        }
    }

    /// Meets an id in a cell, and answers whether it was met last in the same cell. If it was not, its piece is to be added.
    pub(crate) fn meet(
        &mut self,
        id: AttrId,
        cell: usize,
        pieces: &[Piece],
    ) -> Result<bool, AllocError>
        requires { IsReady self.old pieces.now }
        ensures { IfOk result (λ again. IsMeeting self.old self.new pieces.now cell id again) }
    {
        if is_shown(pieces, self.start, id) {
            return Ok(true);
        }
        if pieces.len() - self.start < FEW {
            return Ok(false);
        }
        let again = self.meet_beside(id, cell)?;
        Ok(again)
    }

    /// Meets an id of which the first few pieces do not tell.
    fn meet_beside(&mut self, id: AttrId, cell: usize) -> Result<bool, AllocError>
        ensures start { self.new.start ≡ self.old.start }
        ensures again { IfOk result (λ again. IsTrue again ↔ (told_of self.old.cells id ≡ Some cell)) }
        ensures after { OnOk result ((other : ℕ)
            → told_of self.new.cells other ≡ cond (nat_eq id other) (Some cell) (told_of self.old.cells other)) }
    {
        let before = self.cells.get(id);
        self.cells.put(id, cell)?;
        Ok(before == Some(cell))
    }

    /// Forgets all that was met. The next pieces begin at `start`.
    pub(crate) fn forget(&mut self, start: usize)
        ensures start { self.new.start ≡ start }
        ensures none { (id : ℕ) → told_of self.new.cells id ≡ None }
    {
        self.start = start;
        self.cells.forget();
    }
}

/// Whether one of the first few pieces from a place on has an id.
fn is_shown(pieces: &[Piece], start: usize, id: AttrId) -> bool
    requires { start ≤ length pieces.now }
    ensures { result ≡ shown pieces.now start id }
{
    let own = &pieces[start..];
    let first = &own[..FEW.min(own.len())];
    has_id(first, id)
}

/// Whether one of the pieces has an id.
fn has_id(pieces: &[Piece], id: AttrId) -> bool
    ensures { result ≡ list_any (λ (p : Piece). nat_eq p.id id) pieces.now }
{
    pieces.iter().any(|piece| piece.id == id)
}
