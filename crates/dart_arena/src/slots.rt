//! The rows of an arena in their slab.
ghost use Rattle.std.specs.Prelude.{◌≡◌, ◌≢◌, ℕ, ◌+◌, ◌*◌, ◌^◌, ◌≤◌, ◌<◌, Some, None, IsSome, true, false, option_copied, length, reverse, slice_index, slice_set, OnOk, OnErr};
ghost use Rattle.slab.specs.Slab.{get, slab_len, HasRoomFor};
ghost use Rattle.map_defs.specs.Rows.{entry_of};
ghost use Rattle.map_defs.specs.Edits.{free_row};
ghost use Rattle.dart_arena.specs.RowChanges.{with_links};
ghost use Rattle.dart_arena.specs.Layout.{AreFirst, IsFreed, IsTaken, IsGiven, is_in_order, keys_of, key_at, count_keys, places_capacity, row_under, rows_under, with_row};

use crate::arena::MADE_MAX;
use crate::gather::gather;
use crate::places::Places;
use crate::row::Row;
use slab::Slab;
use std::alloc::AllocError;

/// The entry at a link of the row under a key, 0 where there is none.
pub fn entry_in<const DIM: usize>(rows: &Slab<Row<DIM>>, key: usize, link: usize) -> u32
    requires { link ≤ DIM }
    ensures { result ≡ entry_of (row_under rows.now key) link }
{
    if key == 0 {
        return 0;
    }
    match rows.get(key - 1) {
        Some(row) => row.entry(link),
        None => 0,
    }
}

/// The row under a key, if there is one.
pub fn row_in<const DIM: usize>(rows: &Slab<Row<DIM>>, key: usize) -> Option<&Row<DIM>>
    ensures { option_copied result ≡ row_under rows.now key }
{
    if key == 0 {
        return None;
    }
    rows.get(key - 1)
}

/// The row under a key under which there is one.
pub fn row_there<const DIM: usize>(rows: &Slab<Row<DIM>>, key: usize) -> &Row<DIM>
    requires key { key ≢ 0 }
    requires there { IsSome (row_under rows.now key) }
    ensures { row_under rows.now key ≡ Some result.now }
{
    &rows[key - 1]
}

/// Takes a row of zeros for the dart at a place, and answers its key. While rows stand in the order of their places, it
/// is there already. It takes no memory.
pub fn take_row<const DIM: usize>(rows: &mut Slab<Row<DIM>>, in_order: bool, place: usize) -> usize
    requires place { place < 2 ^ 32 }
    requires room { in_order ≡ false → HasRoomFor rows.old 1 }
    ensures { IsTaken in_order DIM rows.old rows.new place result }
{
    if in_order {
        return place + 1;
    }
    let keys = rows.capacity();
    let key = rows.insert_reserved(Row::zeros());
    if key < keys { key + 1 } else { unreachable!() }
}

/// Gives the row under a key back. While rows stand in the order of their places, it becomes zeros and stays.
pub fn give_row<const DIM: usize>(rows: &mut Slab<Row<DIM>>, in_order: bool, key: usize)
    requires key { key ≢ 0 }
    requires there { IsSome (row_under rows.old key) }
    ensures { IsGiven in_order DIM rows.old rows.new key }
{
    if in_order {
        rows[key - 1] = Row::zeros();
    } else {
        rows.remove(key - 1);
    }
}

/// Puts an entry at a link of the row under a key, if it is one.
pub fn set_in_row<const DIM: usize>(rows: &mut Slab<Row<DIM>>, key: usize, link: usize, to: u32)
    requires there { key ≢ 0 → IsSome (row_under rows.old key) }
    requires link { link ≤ DIM }
    ensures { rows.new ≡ with_row rows.old key (λ row. slice_set row link to) }
{
    if key != 0 {
        rows[key - 1].set(link, to);
    }
}

/// Puts an entry at a link of the row under a key under which there is one.
pub fn set_there<const DIM: usize>(rows: &mut Slab<Row<DIM>>, key: usize, link: usize, to: u32)
    requires key { key ≢ 0 }
    requires there { IsSome (row_under rows.old key) }
    requires link { link ≤ DIM }
    ensures { rows.new ≡ with_row rows.old key (λ row. slice_set row link to) }
{
    rows[key - 1].set(link, to);
}

/// Puts those of these numbers that are not 0 at their links into the row under a key, if it is one.
pub fn put_links_in_row<const DIM: usize>(rows: &mut Slab<Row<DIM>>, key: usize, links: &[u32])
    requires there { key ≢ 0 → IsSome (row_under rows.old key) }
    requires within { (link : ℕ) → slice_index links.now link ≢ 0 → link ≤ DIM }
    ensures { rows.new ≡ with_row rows.old key (with_links 0 links.now) }
{
    if key != 0 {
        rows[key - 1].put_links(links);
    }
}

/// Puts all entries of the row under a key under which there is one.
pub fn put_all_there<const DIM: usize>(rows: &mut Slab<Row<DIM>>, key: usize, links: &[u32])
    requires key { key ≢ 0 }
    requires there { IsSome (row_under rows.old key) }
    requires wide { length links.now ≡ DIM + 1 }
    ensures { rows.new ≡ with_row rows.old key (λ row. links.now) }
{
    rows[key - 1].put_all(links);
}

/// Turns the row under a key round, if it is one.
pub fn turn_row<const DIM: usize>(rows: &mut Slab<Row<DIM>>, key: usize)
    requires { key ≢ 0 → IsSome (row_under rows.old key) }
    ensures { rows.new ≡ with_row rows.old key reverse }
{
    if key != 0 {
        rows[key - 1].reverse();
    }
}

/// Puts rows of zeros under the first keys, up to a count. A row that stands under any of them stays. Where the slab gives
/// another key than the next, this is refused as if there were no memory.
pub fn fill_rows<const DIM: usize>(
    rows: &mut Slab<Row<DIM>>,
    count: usize,
) -> Result<(), AllocError>
    requires rows { AreFirst rows.old }
    requires holds { slab_len rows.old ≤ rows.old.capacity }
    ensures rows { AreFirst rows.new }
    ensures more { slab_len rows.old ≤ slab_len rows.new }
    ensures holds { slab_len rows.new ≤ rows.new.capacity }
    ensures done { OnOk result (count ≤ slab_len rows.new) }
    ensures kept { (key : ℕ) → key < slab_len rows.old → get rows.new key ≡ get rows.old key }
    ensures zeros { (key : ℕ) → slab_len rows.old ≤ key → key < slab_len rows.new → get rows.new key ≡ Some (free_row DIM) }
{
    rows.reserve(count.saturating_sub(rows.len()))?;
    for key in rows.len()..count {
        if rows.vacant_key() != key {
            return Err(AllocError);
        }
        rows.insert_reserved(Row::zeros());
    }
    Ok(())
}

/// Removes the rows that no dart has, so that their keys are vacant.
pub fn remove_dead<const DIM: usize>(rows: &mut Slab<Row<DIM>>, places: &Places)
    requires first { AreFirst rows.old }
    requires within { length (keys_of places.now) ≤ slab_len rows.old }
    ensures kept { (place : ℕ) → key_at (keys_of places.now) place ≢ 0 → get rows.new place ≡ get rows.old place }
    ensures count { slab_len rows.new ≡ count_keys (keys_of places.now) }
    ensures capacity { rows.new.capacity ≡ rows.old.capacity }
{
    for place in 0..rows.len() {
        remove_unless(rows, place, places.key(place));
    }
}

/// Removes a row, but where a dart has it.
fn remove_unless<const DIM: usize>(rows: &mut Slab<Row<DIM>>, place: usize, key: usize)
    requires { IsSome (get rows.old place) }
    ensures had { key ≢ 0 → rows.new ≡ rows.old }
    ensures dead { key ≡ 0 → IsGiven false DIM rows.old rows.new (place + 1) }
{
    if key == 0 {
        rows.remove(place);
    }
}

/// Makes room for so many more rows and places once keys are kept. Where the slab lacks memory, the rows of live darts go
/// into a new one that holds at least twice as many: so births pay for the copies. An error leaves all as it was.
pub fn widen<const DIM: usize>(
    rows: &mut Slab<Row<DIM>>,
    places: &mut Places,
    spare: usize,
    room: usize,
) -> Result<(), AllocError>
    requires order { is_in_order places.old ≡ false }
    requires freed { IsFreed rows.old (keys_of places.old) (slab_len rows.old) 0 }
    requires few { length (keys_of places.old) + spare ≤ MADE_MAX }
    requires bound { slab_len rows.old + room ≤ 2 * MADE_MAX }
    ensures order { is_in_order places.new ≡ false }
    ensures rows { rows_under rows.new (keys_of places.new) ≡ rows_under rows.old (keys_of places.old) }
    ensures freed { OnOk result (IsFreed rows.new (keys_of places.new) (slab_len rows.old) room) }
    ensures capacity { OnOk result (length (keys_of places.new) + spare ≤ places_capacity places.new) }

    // an error leaves the rows and their keys
    ensures same { OnErr result (rows.new ≡ rows.old) }
    ensures keys { OnErr result (keys_of places.new ≡ keys_of places.old) }
    ensures stays { OnErr result (places_capacity places.old ≤ places_capacity places.new) }
{
    if room <= rows.capacity() - rows.len() {
        return places.reserve(spare);
    }
    let live = rows.len();
    let new = gather(rows, places, live, spare, room.max(live))?;
    *rows = new.rows;
    *places = Places::keyed(new.keys);
    Ok(())
}
