ghost use Rattle.std.specs.Prelude.{◌≡◌, ℕ, ◌+◌, ◌*◌, ◌≤◌, ◌<◌, ◌^◌, None, cond, length, IfOk, OnOk};
ghost use Rattle.map_defs.specs.Carry.{merged_with};
ghost use Rattle.store_defs.specs.Stores.{IsHeld};
ghost use Rattle.store_defs.specs.Groups.{group_at};
ghost use Rattle.transport.specs.Tallies.{count_of};
ghost use Rattle.transport.specs.Pieces.{piece_at, has_id, count_below, IsPieceMerged, AreMerged};

use crate::by_id::FEW;
use crate::group::Group;
use crate::pieces::Piece;
use crate::tally::Tally;
use attr_pool::{AttrId, Pool};
use attr_rules::Rule;
use map_kind::Value;
use std::alloc::{AllocError, Global};

/// Gives each cell the values of its pieces, merged in the order of the pieces.
pub(crate) fn merge_pieces<R: Rule>(
    alloc: Global,
    pool: &Pool,
    rule: &R,
    pieces: &[Piece],
    cells: &mut Vec<Group>,
) -> Result<(), AllocError>
    requires ready { R.ready rule.now }
    requires placed { (k : ℕ) → k < length pieces.now → (piece_at pieces.now k).cell < length cells.old.items }
    requires live { (k : ℕ) → k < length pieces.now → IsHeld pool.now (piece_at pieces.now k).id }
    requires bare { (n : ℕ) → n < length cells.old.items → (group_at cells.old.items n).value ≡ None }
    requires few { length pieces.now < 2 ^ 32 }
    ensures { OnOk result (AreMerged (R.meaning rule.now) pool.now pieces.now (length pieces.now)
        cells.old.items cells.new.items) }
{
    if pieces.len() <= FEW {
        merge_few(pool, rule, pieces, cells);
        return Ok(());
    }
    merge_many(alloc, pool, rule, pieces, cells)
}

/// Does so for few pieces: they are looked through for each of them, which takes no memory.
fn merge_few<R: Rule>(pool: &Pool, rule: &R, pieces: &[Piece], cells: &mut Vec<Group>)
    requires ready { R.ready rule.now }
    requires placed { (k : ℕ) → k < length pieces.now → (piece_at pieces.now k).cell < length cells.old.items }
    requires live { (k : ℕ) → k < length pieces.now → IsHeld pool.now (piece_at pieces.now k).id }
    requires bare { (n : ℕ) → n < length cells.old.items → (group_at cells.old.items n).value ≡ None }
    requires few { length pieces.now < 2 ^ 32 }
    ensures { AreMerged (R.meaning rule.now) pool.now pieces.now (length pieces.now) cells.old.items cells.new.items }
{
    for (place, piece) in pieces.iter().enumerate() {
        let total = count_before(pieces, pieces.len(), piece.id);
        let before = count_before(pieces, place, piece.id);
        merge_piece(pool, rule, *piece, total, before, cells);
    }
}

/// Does so for any number of pieces: they are counted by their ids.
fn merge_many<R: Rule>(
    alloc: Global,
    pool: &Pool,
    rule: &R,
    pieces: &[Piece],
    cells: &mut Vec<Group>,
) -> Result<(), AllocError>
    requires ready { R.ready rule.now }
    requires placed { (k : ℕ) → k < length pieces.now → (piece_at pieces.now k).cell < length cells.old.items }
    requires live { (k : ℕ) → k < length pieces.now → IsHeld pool.now (piece_at pieces.now k).id }
    requires bare { (n : ℕ) → n < length cells.old.items → (group_at cells.old.items n).value ≡ None }
    requires few { length pieces.now < 2 ^ 32 }
    ensures { OnOk result (AreMerged (R.meaning rule.now) pool.now pieces.now (length pieces.now)
        cells.old.items cells.new.items) }
{
    let room = room_for(pieces);
    let totals = tally_of(alloc, room, pieces)?;
    let mut before = Tally::new(alloc, room)?;
    for piece in pieces {
        let total = totals.count(piece.id);
        let passed = before.count(piece.id);
        merge_piece(pool, rule, *piece, total, passed, cells);
        before.add(piece.id)?;
    }
    Ok(())
}

/// Merges what a piece gets into its cell: so many pieces have its id, and so many of them come before it.
fn merge_piece<R: Rule>(
    pool: &Pool,
    rule: &R,
    piece: Piece,
    total: u32,
    before: u32,
    cells: &mut Vec<Group>,
)
    requires ready { R.ready rule.now }
    requires placed { piece.cell < length cells.old.items }
    requires live { IsHeld pool.now piece.id }
    requires counts { before < total }
    ensures { IsPieceMerged (R.meaning rule.now) pool.now piece total before cells.old.items cells.new.items }
{
    let value = pool.value(piece.id).unwrap();
    let part = rule.share(value, total, before);
    let cell = &mut cells[piece.cell];
    cell.value = merged_with(rule, cell.value, part);
}

/// How many of the pieces before a place have an id.
fn count_before(pieces: &[Piece], end: usize, id: AttrId) -> u32
    requires end { end ≤ length pieces.now }
    requires few { length pieces.now < 2 ^ 32 }
    ensures { result ≡ count_below (has_id pieces.now id) end }
{
    let mut count = 0;
    for place in 0..end {
        count = one_more_if(count, pieces[place].id == id);
    }
    count
}

/// One more where another is to be counted, or else the count as it was.
fn one_more_if(count: u32, another: bool) -> u32
    requires { count + 1 < 2 ^ 32 }
    ensures { result ≡ cond another (count + 1) count }
{
    if another {
        return count + 1;
    }
    count
}

/// How many pieces have each id. The ids below `room` have places in the table.
fn tally_of(alloc: Global, room: usize, pieces: &[Piece]) -> Result<Tally, AllocError>
    requires { length pieces.now < 2 ^ 32 }
    ensures { IfOk result (λ tally. (id : ℕ) → count_of tally id ≡ count_below (has_id pieces.now id) (length pieces.now)) }
{
    let mut tally = Tally::new(alloc, room)?;
    for piece in pieces {
        tally.add(piece.id)?;
    }
    Ok(tally)
}

/// How many ids have places in the table of a tally of these pieces: those up to the greatest, but no more than four for each
/// piece, so that an edit of a good part of a map counts most ids there.
fn room_for(pieces: &[Piece]) -> usize
    requires { length pieces.now < 2 ^ 32 }
    ensures { result ≤ 4 * length pieces.now }
{
    let up_to_greatest = greatest_id(pieces) as usize + 1;
    up_to_greatest.min(4 * pieces.len())
}

/// The greatest number of the ids of some pieces; 0 where there are none.
fn greatest_id(pieces: &[Piece]) -> u32 {
    let mut greatest = 0;
    for piece in pieces {
        greatest = greatest.max(piece.id.number());
    }
    greatest
}

/// The value so far, merged with that of the next piece, if it has one.
fn merged_with<R: Rule>(rule: &R, sofar: Option<Value>, part: Option<Value>) -> Option<Value>
    requires { R.ready rule.now }
    ensures { result ≡ merged_with (R.meaning rule.now).merged sofar part }
{
    match (sofar, part) {
        (Some(x), Some(y)) => Some(rule.merged(x, y)),
        (None, part) => part,
        (sofar, None) => sofar,
    }
}
