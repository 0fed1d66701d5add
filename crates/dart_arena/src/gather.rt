//! The rows of live darts, put together in a slab of their own.
ghost use Rattle.std.specs.Prelude.{◌≡◌, ◌+◌, ◌*◌, ◌^◌, ◌≤◌, ◌<◌, None, IsSome, is_some, length, filter, vec_capacity, IfOk};
ghost use Rattle.slab.specs.Slab.{slab_len, HasRoomFor};
ghost use Rattle.dart_arena.specs.Layout.{IsFreed, IsTurned, keys_of, row_under, rows_under};

use crate::arena::MADE_MAX;
use crate::places::Places;
use crate::row::Row;
use slab::Slab;
use std::alloc::AllocError;

/// Rows under keys of their own: those of live darts alone.
#[derive(Drop)]
pub struct Gathered<const DIM: usize> {
    pub rows: Slab<Row<DIM>>,
    /// The key of each place, 0 where no dart lives.
    pub keys: Vec<u32>,
}

/// The rows of the live darts, so many, in a new slab, in the order of their darts, with room for so many more, and the key
/// of each place, with room for so many more places. It fails where memory is missing, or where the new slab could give a
/// key of more than 32 bits.
pub fn gather<const DIM: usize>(
    rows: &Slab<Row<DIM>>,
    places: &Places,
    live: usize,
    spare: usize,
    room: usize,
) -> Result<Gathered<DIM>, AllocError>
    requires live { live ≡ length (filter is_some (rows_under rows.now (keys_of places.now))) }
    requires few { length (keys_of places.now) + spare ≤ MADE_MAX }
    requires room { live + room ≤ 2 * MADE_MAX }
    ensures rows { IfOk result (λ new. rows_under new.rows new.keys.items ≡ rows_under rows.now (keys_of places.now)) }
    ensures freed { IfOk result (λ new. IsFreed new.rows new.keys.items live room) }
    ensures capacity { IfOk result (λ new. length (keys_of places.now) + spare ≤ vec_capacity new.keys) }
{
    let alloc = places.allocator();
    let mut gathered = Slab::with_capacity(alloc, live + room)?;
    if gathered.capacity() > u32::MAX as usize {
        return Err(AllocError);
    }
    let mut keys = Vec::with_capacity(alloc, places.made() + spare)?;
    for place in 0..places.made() {
        keys.push_reserved(copy_row(rows, places.key(place), &mut gathered));
    }
    Ok(Gathered {
        rows: gathered,
        keys,
    })
}

/// Copies the row under a key, if it is one, into another slab, and answers its key there, 0 where there is none. It takes
/// no memory.
fn copy_row<const DIM: usize>(from: &Slab<Row<DIM>>, key: usize, to: &mut Slab<Row<DIM>>) -> u32
    requires room { IsSome (row_under from.now key) → HasRoomFor to.old 1 }
    requires small { to.old.capacity < 2 ^ 32 }
    ensures same { row_under to.new result ≡ row_under from.now key }
    ensures none { row_under from.now key ≡ None → (result ≡ 0) × (to.new ≡ to.old) }
    ensures turned { IsSome (row_under from.now key) → IsTurned to.old to.new result }
    ensures fresh { row_under to.old result ≡ None }
    ensures count { IsSome (row_under from.now key) → slab_len to.new ≡ slab_len to.old + 1 }
{
    if key == 0 {
        return 0;
    }
    match from.get(key - 1) {
        Some(row) => to.insert_reserved(row.copy()) as u32 + 1,
        None => 0,
    }
}
