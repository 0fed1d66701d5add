//! The links of a listing's map, whose darts keep the numbers that the listing gives them.
ghost use Rattle.std.specs.Prelude.{◌≡◌, ℕ, ◌+◌, ◌-◌, ◌<◌, ◌≤◌, ◌↔◌, ◌++◌, length, slice_set, Some, IfOk, OnOk};
ghost use Rattle.std.specs.List.{range_with_len};
ghost use Rattle.map_defs.specs.Rows.{made, links_of, IsLive, AreWide};
ghost use Rattle.map_defs.specs.Laws.{Laws};
ghost use Rattle.machine_defs.specs.ListingFaults.{HasRow, links_in};
ghost use Rattle.list_text.specs.Judging.{IsSoundListing};
ghost use Rattle.list_text.specs.Spread.{AreSpread, AreUnlisted};

use crate::Listing;
use link_rows::{LinkBuilder, Links, PlainEdit};
use map_kind::{Dart, Kind};
use std::alloc::{AllocError, Global};

/// The links of the map that a listing tells, with as many darts made. A dart that has no row is not live. The listing is of
/// this kind and dimension. Every listing that was read is sound.
///
/// It takes memory and time that are linear in the darts made.
pub fn listing_links<K: Kind, const DIM: usize>(
    alloc: Global,
    listing: &Listing,
) -> Result<Links<K, DIM>, AllocError>
    requires sound { IsSoundListing listing.now }
    requires kind { listing.now.kind ≡ K.kind }
    requires dim { listing.now.dim ≡ DIM }
    ensures made { IfOk result (λ links. made links.rows ≡ listing.now.made) }
    ensures live { IfOk result (λ links. (d : ℕ) → IsLive links.rows d ↔ HasRow listing.now.rows d) }
    ensures links { IfOk result (λ links. (i d : ℕ) → links_of links.rows i d ≡ links_in listing.now.rows i d) }
    ensures laws { IfOk result (λ links. Laws K.kind (links_of links.rows)) }
{
    let mut links = spread_links::<K, DIM>(alloc, listing)?;
    let edit = PlainEdit {
        births: 0,
        deaths: unlisted_darts(alloc, listing)?,
        changes: Vec::new(alloc),
    };
    links.apply_plain(&edit);
    Ok(links)
}

/// The links of the rows, where all darts that were made live.
fn spread_links<K: Kind, const DIM: usize>(
    alloc: Global,
    listing: &Listing,
) -> Result<Links<K, DIM>, AllocError>
    requires sound { IsSoundListing listing.now }
    requires kind { listing.now.kind ≡ K.kind }
    requires dim { listing.now.dim ≡ DIM }
    ensures { IfOk result (λ links. AreSpread DIM listing.now.made listing.now.rows links.rows) }
{
    let rows = listing.rows.as_slice();
    let Ok(mut builder) = LinkBuilder::<K, DIM>::new(alloc, listing.made) else {
        return Err(AllocError);
    };
    for row in rows {
        set_row(&mut builder, row.dart, row.links.as_slice());
    }
    Ok(builder.finish())
}

/// Sets all links of a live dart.
fn set_row<K: Kind, const DIM: usize>(builder: &mut LinkBuilder<K, DIM>, dart: Dart, links: &[u32])
    requires live { IsLive builder.old.rows dart }
    requires rows { AreWide DIM builder.old.rows }
    requires links { length links.now ≡ DIM + 1 }
    ensures { builder.new.rows ≡ slice_set builder.old.rows dart (Some links.now) }
{
    for (link, to) in links.iter().enumerate() {
        builder.set(dart, link, *to);
    }
}

/// The darts that were made and have no row, ascending.
fn unlisted_darts(alloc: Global, listing: &Listing) -> Result<Vec<Dart>, AllocError>
    requires { IsSoundListing listing.now }
    ensures { IfOk result (λ darts. AreUnlisted listing.now.rows (listing.now.made + 1) darts.items) }
{
    let rows = listing.rows.as_slice();
    let mut darts = Vec::new(alloc);
    let mut next = 1;
    for row in rows {
        let dart = row.dart.number();
        push_darts(&mut darts, next, dart)?;
        next = dart + 1;
    }
    push_darts(&mut darts, next, listing.made + 1)?;
    Ok(darts)
}

/// Puts the darts from one number on and below another behind these.
fn push_darts(darts: &mut Vec<Dart>, first: u32, end: u32) -> Result<(), AllocError>
    requires first { 0 < first }
    requires order { first ≤ end }
    ensures { OnOk result (darts.new.items ≡ darts.old.items ++ range_with_len first (end - first)) }
{
    for number in first..end {
        darts.push(Dart::new(number).unwrap())?;
    }
    Ok(())
}
