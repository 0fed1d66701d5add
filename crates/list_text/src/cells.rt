//! The cells of a listing's map. Its darts are numbered anew, by the places of their rows, so that a walk takes no memory
//! for darts that are not live.
ghost use Rattle.std.specs.Prelude.{◌≡◌, ℕ, ◌+◌, ◌-◌, ◌<◌, ◌≤◌, ◌^◌, ◌↔◌, List, length, slice_index, IfOk, IsTrue};
ghost use Rattle.map_defs.specs.Kind.{Kind as MapKind};
ghost use Rattle.map_defs.specs.Cells.{NamesCell};
ghost use Rattle.machine_defs.specs.Listing.{ListRow as Listed};
ghost use Rattle.machine_defs.specs.ListingFaults.{links_in, IsLawful};
ghost use Rattle.row_laws.specs.Rows.{darts_of, AreRows};
ghost use Rattle.list_text.specs.Ranks.{IsRank, AreSetUpTo, AreRanked, AreLeast, lists_of};

use crate::ListRow;
use crate::table::RowTable;
use cell_walk::cells;
use link_rows::{LinkBuilder, Links};
use map_kind::{Dart, Kind};
use std::alloc::{AllocError, Global};

/// The new number of a dart: 1 for that of the first row, and so on; 0 where the dart has no row.
fn rank(table: &RowTable, dart: u32) -> u32
    requires { length table.now < 2 ^ 32 - 1 }
    ensures { IsRank table.now dart result }
{
    match table.place_of(u64::from(dart)) {
        Some(place) => place as u32 + 1,
        None => 0,
    }
}

/// The links of the rows, between darts with new numbers.
pub(crate) fn ranked_links<K: Kind, const DIM: usize>(
    alloc: Global,
    table: &RowTable,
    rows: &[ListRow],
) -> Result<Links<K, DIM>, AllocError>
    requires low { 2 ≤ DIM }
    requires high { DIM ≤ 8 }
    requires same { table.now ≡ rows.now }
    requires rows { AreRows DIM rows.now }
    requires lawful { (p : ℕ) → p < length rows.now → IsLawful K.kind rows.now (slice_index (darts_of rows.now) p) }
    requires few { length rows.now < 2 ^ 32 - 1 }
    ensures { IfOk result (λ links. AreRanked DIM rows.now links.rows) }
{
    let Ok(mut builder) = LinkBuilder::<K, DIM>::new(alloc, rows.len() as u32) else {
        return Err(AllocError);
    };
    for (place, row) in rows.iter().enumerate() {
        let dart = Dart::new(place as u32 + 1).unwrap();
        set_links(&mut builder, table, dart, row.links.as_slice());
    }
    Ok(builder.finish())
}

/// Sets the links of a dart.
fn set_links<K: Kind, const DIM: usize>(
    builder: &mut LinkBuilder<K, DIM>,
    table: &RowTable,
    dart: Dart,
    links: &[u32],
)
    requires low { 2 ≤ DIM }
    requires high { DIM ≤ 8 }
    requires row { dart ≤ length table.now }
    requires few { length table.now < 2 ^ 32 - 1 }
    requires links { (j : ℕ) → slice_index links.now j ≡ links_in table.now j (slice_index (darts_of table.now) (dart - 1)) }
    requires wide { length links.now ≡ DIM + 1 }
    requires before { AreSetUpTo DIM table.now (dart - 1) 0 builder.old.rows }
    ensures { AreSetUpTo DIM table.now dart 0 builder.new.rows }
{
    for link in 0..DIM + 1 {
        builder.set(dart, link, rank(table, links[link]));
    }
}

/// The least darts of the cells of a listing's map, by their new numbers, for each dimension from 0 to that of the map.
#[derive(Drop)]
pub(crate) struct Cells {
    pub least: Vec<Vec<Dart>>,
}

impl Cells {
    /// The least darts of the cells of these rows.
    pub(crate) fn new<K: Kind, const DIM: usize>(
        alloc: Global,
        table: &RowTable,
        rows: &[ListRow],
    ) -> Result<Cells, AllocError>
        requires low { 2 ≤ DIM }
        requires high { DIM ≤ 8 }
        requires same { table.now ≡ rows.now }
        requires rows { AreRows DIM rows.now }
        requires lawful { (p : ℕ) → p < length rows.now → IsLawful K.kind rows.now (slice_index (darts_of rows.now) p) }
        requires few { length rows.now < 2 ^ 32 - 1 }
        ensures { IfOk result (λ cells. AreLeast K.kind (DIM + 1) rows.now (lists_of cells.least.items)) }
    {
        let links = ranked_links::<K, DIM>(alloc, table, rows)?;
        let mut least = Vec::new(alloc);
        for dim in 0..DIM + 1 {
            least.push(cells(alloc, &links, dim)?)?;
        }
        Ok(Cells { least })
    }

    /// Whether the dart of the row at a place is the least of its cell of a dimension.
    pub(crate) fn names(&self, dim: usize, place: usize) -> bool
        requires dim { dim < length self.now.least.items }
        requires place { place < 2 ^ 32 - 1 }
        ensures { (k : MapKind) (count : ℕ) (rows : List Listed) → AreLeast k count rows (lists_of self.now.least.items) → place < length rows
            → IsTrue result ↔ NamesCell k (links_in rows) dim (slice_index (darts_of rows) place) }
    {
        let number = Dart::new(place as u32 + 1).unwrap();
        let least = self.least.as_slice();
        let darts = least[dim].as_slice();
        darts.binary_search(&number).is_ok()
    }
}
