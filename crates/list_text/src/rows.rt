//! The rows of a listing, told from the links of a map.
ghost use Rattle.std.specs.Prelude.{◌≡◌, ℕ, ◌+◌, IfOk, OnOk, ◌++◌, ◌∷◌, [], map};
ghost use Rattle.std.specs.List.{range_with_len};
ghost use Rattle.map_defs.specs.Rows.{row_at, links_of};
ghost use Rattle.machine_defs.specs.Listing.{live_rows_from};

use crate::ListRow;
use link_rows::Links;
use map_kind::{Dart, Kind};
use std::alloc::{AllocError, Global};

/// The rows of the live darts of a map, ascending, as its listing has them. It is linear in the darts that were made. The one
/// error is want of memory.
pub fn list_rows<K: Kind, const DIM: usize>(
    alloc: Global,
    links: &Links<K, DIM>,
) -> Result<Vec<ListRow>, AllocError>
    ensures { IfOk result (λ rows. rows.items ≡ live_rows_from 0 links.now.rows) }
{
    let mut rows = Vec::new(alloc);
    for number in 0..links.made() {
        list_row(alloc, links, Dart::new(number + 1).unwrap(), &mut rows)?;
    }
    Ok(rows)
}

/// Lists the row of a dart, if it is live.
fn list_row<K: Kind, const DIM: usize>(
    alloc: Global,
    links: &Links<K, DIM>,
    dart: Dart,
    rows: &mut Vec<ListRow>,
) -> Result<(), AllocError>
    ensures { OnOk result (rows.new.items ≡ rows.old.items ++ live_rows_from dart (row_at links.now.rows dart ∷ [])) }
{
    if !links.is_live(dart) {
        return Ok(());
    }
    let links = entries(alloc, links, dart)?;
    rows.push(ListRow { dart, links })?;
    Ok(())
}

/// The entries of a dart: the dart at each link from 0 on, 0 where the link is free.
fn entries<K: Kind, const DIM: usize>(
    alloc: Global,
    links: &Links<K, DIM>,
    dart: Dart,
) -> Result<Vec<u32>, AllocError>
    ensures { IfOk result (λ entries. entries.items
        ≡ map (λ (i : ℕ). links_of links.now.rows i dart) (range_with_len 0 (DIM + 1))) }
{
    let count = links.dimension() + 1;
    let mut entries = Vec::with_capacity(alloc, count)?;
    for link in 0..count {
        entries.push(links.number_at(dart, link))?;
    }
    Ok(entries)
}
