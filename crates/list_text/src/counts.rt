//! The counts of a listing's map.
ghost use Rattle.std.specs.Prelude.{ℕ, ◌≡◌, ◌-◌, ◌<◌, ◌≤◌, ◌^◌, length, slice_index, IfOk};
ghost use Rattle.map_defs.specs.Counts.{AreCountsAmong};
ghost use Rattle.machine_defs.specs.ListingFaults.{HasRow, links_in, IsLawful};
ghost use Rattle.machine_defs.specs.Auditing.{AreListingCounts};
ghost use Rattle.list_text.specs.Judging.{IsSoundListing};
ghost use Rattle.row_laws.specs.Rows.{darts_of, AreRows};

use crate::cells::ranked_links;
use crate::table::RowTable;
use crate::{ListRow, Listing};
use cell_walk::counts;
use map_kind::{Alpha, Beta, Kind};
use std::alloc::{AllocError, Global};

/// The counts of the map that a listing tells: its live darts, its cells of each dimension from 0 to its own, and its
/// components, in this order. Every listing that was read is sound.
pub fn listing_counts(alloc: Global, listing: &Listing) -> Result<Vec<u64>, AllocError>
    requires { IsSoundListing listing.now }
    ensures { IfOk result (λ counts. AreListingCounts listing.now counts.items) }
{
    let rows = listing.rows.as_slice();
    let table = RowTable::new(alloc, rows)?;
    match (listing.letter == b'g', listing.dim) {
        (true, 2) => row_counts::<Alpha, 2>(alloc, &table, rows),
        (true, 3) => row_counts::<Alpha, 3>(alloc, &table, rows),
        (true, _) => row_counts::<Alpha, 4>(alloc, &table, rows),
        (false, 2) => row_counts::<Beta, 2>(alloc, &table, rows),
        (false, 3) => row_counts::<Beta, 3>(alloc, &table, rows),
        (false, _) => row_counts::<Beta, 4>(alloc, &table, rows),
    }
}

/// The same for the map of these rows, where the kind and the dimension are known.
fn row_counts<K: Kind, const DIM: usize>(
    alloc: Global,
    table: &RowTable,
    rows: &[ListRow],
) -> Result<Vec<u64>, AllocError>
    requires low { 2 ≤ DIM }
    requires high { DIM ≤ 8 }
    requires same { table.now ≡ rows.now }
    requires rows { AreRows DIM rows.now }
    requires lawful { (p : ℕ) → p < length rows.now → IsLawful K.kind rows.now (slice_index (darts_of rows.now) p) }
    requires few { length rows.now < 2 ^ 32 - 1 }
    ensures { IfOk result (λ counts. AreCountsAmong K.kind DIM (HasRow rows.now) (length rows.now) (links_in rows.now) counts.items) }
{
    let links = ranked_links::<K, DIM>(alloc, table, rows)?;
    counts(alloc, &links)
}
