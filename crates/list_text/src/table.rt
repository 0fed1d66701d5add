ghost use Rattle.std.specs.Prelude.{◌≡◌, ◌≢◌, ℕ, ◌<◌, ◌↔◌, length, slice_index, IfOk, IfSome, IfNone, IsTrue, option_map};
ghost use Rattle.machine_defs.specs.ListingFaults.{row_in, links_in, HasRow};
ghost use Rattle.row_laws.specs.Rows.{darts_of, Ascend};

use crate::ListRow;
use std::alloc::{AllocError, Global};
use std::marker::Model;

/// Rows that ascend by their darts, to look up the row of a dart. It is seen as the rows.
#[derive(Drop)]
pub(crate) struct RowTable<'a> {
    // The darts of the rows, which a search runs through.
    darts: Vec<u64>,
    rows: &'a [ListRow],
}

impl<'a> Model for RowTable<'a> {
    ghost use Rattle.std.specs.Prelude.{List, ◌≡◌};
    ghost use Rattle.machine_defs.specs.Listing.{ListRow as Listed};
    ghost use Rattle.row_laws.specs.Rows.{darts_of, Ascend};

    ghost Value = { List Listed };

    ghost view = { λ table. table.rows.now };

    ghost invariant = { λ table. (table.darts.items ≡ darts_of table.rows.now) × Ascend table.rows.now };
}

impl<'a> RowTable<'a> {
    /// The table of these rows.
    pub(crate) fn new(alloc: Global, rows: &'a [ListRow]) -> Result<RowTable<'a>, AllocError>
        requires { Ascend rows.now }
        ensures { IfOk result (λ table. table ≡ rows.now) }
    {
        let darts = rows
            .iter()
            .map(|row| u64::from(row.dart.number()))
            .collect(alloc)?;
        Ok(RowTable { darts, rows })
    }

    /// The place of the row of a dart; none exactly where it has none.
    pub(crate) fn place_of(&self, dart: u64) -> Option<usize>
        ensures within { IfSome result (λ place. place < length self.now) }
        ensures found { IfSome result (λ place. slice_index (darts_of self.now) place ≡ dart) }
        ensures none { IfNone result ((k : ℕ) → k < length self.now → slice_index (darts_of self.now) k ≢ dart) }
    {
        match self.darts.binary_search(&dart) {
            Ok(place) => Some(place),
            Err(_place) => None,
        }
    }

    /// The entries of the row of a dart; none exactly where it has none.
    fn links_of(&self, dart: u32) -> Option<&[u32]>
        ensures { option_map (λ links. links.now) result ≡ row_in self.now dart }
    {
        let place = self.place_of(u64::from(dart))?;
        let rows = self.rows;
        let row = &rows[place];
        Some(row.links.as_slice())
    }

    /// Whether a dart has a row.
    pub(crate) fn has_row(&self, dart: u32) -> bool
        ensures { IsTrue result ↔ HasRow self.now dart }
    {
        self.links_of(dart).is_some()
    }

    /// The number of the dart at a link of a dart; 0 where the link is free, or the dart has no row.
    pub(crate) fn link(&self, link: usize, dart: u32) -> u32
        ensures { result ≡ links_in self.now link dart }
    {
        match self.links_of(dart) {
            Some(links) => links.get(link).copied().unwrap_or(0),
            None => 0,
        }
    }
}
