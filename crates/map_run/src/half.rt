//! The half of a listing: the oriented half of a generalized map, or the double of a combinatorial map.
ghost use Rattle.std.specs.Prelude.{◌≡◌, ◌≢◌, ◌≤◌, ◌+◌, ◌++◌, ℕ, List, Ok, Some, codes, length, IfOk, IsErrOf};
ghost use Rattle.map_defs.specs.Kind.{alpha, beta};
ghost use Rattle.map_defs.specs.Rows.{made_max};
ghost use Rattle.map_defs.specs.Values.{Hook};
ghost use Rattle.machine_defs.specs.Halving.{HalfAnswer, listing_of_rows};
ghost use Rattle.machine_defs.specs.Outside.{Files, Rose};
ghost use Rattle.machine_defs.specs.Program.{TellsCommand, Half};
ghost use Rattle.machine_defs.specs.Text.{listing_text, numbers_text};
ghost use Rattle.list_text.specs.Judging.{IsSoundListing};
ghost use Rattle.map_io.specs.Cause.{HasCause};
ghost use Rattle.text_lines.specs.Writing.{WritesText};
ghost use Rattle.map_run.specs.Ending.{EndsCall, EndsAnswer, IsRefused};
ghost use Rattle.map_run.specs.Halves.{ListingHalfAnswer, IsHalved, orient_line_of};

use crate::last::{put_status, write_last, write_unfetched};
use crate::refused::refuse_listing;
use link_rows::Links;
use list_text::{LISTING_MAX, Listing, list_rows, listing_links, put_listing, read_listing};
use map_io::{PutFault, Shelf, Sink};
use map_kind::{Alpha, Beta, Dart, Kind};
use orient_half::{DoubleMap, HalfMap, OrientFault, double, orient};
use std::alloc::{AllocError, Global};
use text_lines::{TextLine, append_spaced, put_line};

/// Fetches a listing and writes the listing of its half or of its double, with the darts that the new ones stand for; or writes
/// the line that says why it was not fetched, what its first fault is, or why its map has no half. Answers the status.
pub fn half<F: Shelf, S: Sink>(alloc: Global, name: &str, shelf: &mut F, out: &mut S) -> u8
    requires asked { F.may_ask shelf.old name.now }
    ensures outcome { (hook : Hook) (words : List (List ℕ)) (files : Files) → TellsCommand words (Half name.now)
        → F.holds shelf.old ≡ Some files →
        EndsCall hook (S.written out.old) (S.written out.new) words files
        (Rose (F.faults shelf.old) (F.faults shelf.new)) (Rose (S.faults out.old) (S.faults out.new)) result }
    ensures command { result ≢ 2 }
    ensures range { result ≤ 7 }
    ensures unread { result ≡ 5 → Rose (F.faults shelf.old) (F.faults shelf.new) }
    ensures unwritten { result ≡ 6 → Rose (S.faults out.old) (S.faults out.new) }
    ensures later { S.faults out.old ≤ S.faults out.new }
{
    match shelf.fetch(alloc, name, LISTING_MAX) {
        Ok(bytes) => half_bytes(alloc, &bytes, out),
        Err(fault) => write_unfetched(out, fault),
    }
}

/// The half of the bytes of a listing.
fn half_bytes<S: Sink>(alloc: Global, bytes: &[u8], out: &mut S) -> u8
    requires { length bytes.now ≤ LISTING_MAX }
    ensures ends { EndsAnswer (HalfAnswer bytes.now) (Rose (S.faults out.old) (S.faults out.new)) (S.written out.old) (S.written out.new) result }
    ensures unwritten { result ≡ 6 → Rose (S.faults out.old) (S.faults out.new) }
    ensures later { S.faults out.old ≤ S.faults out.new }
    ensures command { result ≢ 2 }
    ensures unread { result ≢ 5 }
    ensures range { result ≤ 7 }
{
    match read_listing(alloc, bytes) {
        Ok(listing) => half_listing(alloc, &listing, out),
        Err(fault) => refuse_listing(alloc, out, fault),
    }
}

/// The half of a listing that was read, which has few enough rows for a double.
fn half_listing<S: Sink>(alloc: Global, listing: &Listing, out: &mut S) -> u8
    requires sound { IsSoundListing listing.now }
    requires few { length listing.now.rows + length listing.now.rows ≤ made_max }
    ensures ends { EndsAnswer (ListingHalfAnswer listing.now) (Rose (S.faults out.old) (S.faults out.new)) (S.written out.old) (S.written out.new) result }
    ensures unwritten { result ≡ 6 → Rose (S.faults out.old) (S.faults out.new) }
    ensures later { S.faults out.old ≤ S.faults out.new }
    ensures command { result ≢ 2 }
    ensures unread { result ≢ 5 }
    ensures range { result ≤ 7 }
{
    match halved(alloc, listing) {
        Ok(half) => put_status(put_half(alloc, half, out), 0),
        Err(fault) => refuse_map(alloc, out, fault),
    }
}

/// The listing of a half or of a double, and the darts that its darts stand for.
#[derive(Drop)]
struct HalfListing {
    listing: Listing,
    origins: Vec<Dart>,
}

/// The half of the map of a listing, or why it has none; or its double, if it is a combinatorial map.
fn halved(alloc: Global, listing: &Listing) -> Result<HalfListing, OrientFault>
    requires sound { IsSoundListing listing.now }
    requires few { length listing.now.rows + length listing.now.rows ≤ made_max }
    ensures { IsHalved listing.now result }
{
    match (listing.letter == b'g', listing.dim) {
        (true, 2) => half_of::<2>(alloc, listing),
        (true, 3) => half_of::<3>(alloc, listing),
        (true, _) => half_of::<4>(alloc, listing),
        (false, 2) => double_of::<2>(alloc, listing),
        (false, 3) => double_of::<3>(alloc, listing),
        (false, _) => double_of::<4>(alloc, listing),
    }
}

/// The half of a generalized map of a dimension, or why it has none.
fn half_of<const DIM: usize>(alloc: Global, listing: &Listing) -> Result<HalfListing, OrientFault>
    requires sound { IsSoundListing listing.now }
    requires kind { listing.now.kind ≡ alpha }
    requires dim { listing.now.dim ≡ DIM }
    ensures { IsHalved listing.now result }
{
    let links = listing_links::<Alpha, DIM>(alloc, listing)?;
    let signs = orient(alloc, &links)?;
    let HalfMap {
        links: half,
        origin,
    } = orient_half::half(alloc, &links, signs.as_slice())?;
    Ok(listed(alloc, &half, origin)?)
}

/// The double of a combinatorial map of a dimension.
fn double_of<const DIM: usize>(alloc: Global, listing: &Listing) -> Result<HalfListing, OrientFault>
    requires sound { IsSoundListing listing.now }
    requires few { length listing.now.rows + length listing.now.rows ≤ made_max }
    requires kind { listing.now.kind ≡ beta }
    requires dim { listing.now.dim ≡ DIM }
    ensures { IsHalved listing.now result }
{
    let links = listing_links::<Beta, DIM>(alloc, listing)?;
    let DoubleMap {
        links: double,
        origin,
    } = double(alloc, &links)?;
    Ok(listed(alloc, &double, origin)?)
}

/// The listing of new links, and the darts that theirs stand for.
fn listed<K: Kind, const DIM: usize>(
    alloc: Global,
    links: &Links<K, DIM>,
    origins: Vec<Dart>,
) -> Result<HalfListing, AllocError>
    ensures listing { IfOk result (λ half. half.listing ≡ listing_of_rows K.kind DIM links.now.rows) }
    ensures origins { IfOk result (λ half. half.origins ≡ origins) }
{
    let listing = Listing {
        letter: K::letter(),
        dim: links.dimension() as u32,
        made: links.made(),
        rows: list_rows(alloc, links)?,
        rules: Vec::new(alloc),
        values: Vec::new(alloc),
        marks: Vec::new(alloc),
    };
    Ok(HalfListing { listing, origins })
}

/// Writes the listing of a half, and then the darts that its darts stand for.
fn put_half<S: Sink>(alloc: Global, half: HalfListing, out: &mut S) -> Result<(), PutFault>
    ensures written { WritesText (S.written out.old) (S.written out.new) result
        (listing_text half.listing ++ numbers_text (codes "from") half.origins.items) }
    ensures cause { HasCause (S.faults out.old) (S.faults out.new) (IsErrOf result PutFault.Failed) }
{
    put_listing(alloc, out, &half.listing)?;
    let line = FromLine {
        origins: half.origins,
    };
    put_line(alloc, out, &line)
}

/// The line behind the listing of a half: the darts that its darts stand for, by their numbers.
#[derive(Drop)]
struct FromLine {
    origins: Vec<Dart>,
}

impl TextLine for FromLine {
    ghost use Rattle.std.specs.Prelude.{◌++◌, codes, refl};
    ghost use Rattle.std.specs.List.{flat_map};
    ghost use Rattle.std.proofs.Common.{inr};
    ghost use Rattle.machine_defs.specs.Text.{spaced, numbers_text};

    ghost line = { λ l. numbers_text (codes "from") l.origins.items };

    fn append_to(&self, text: &mut Vec<u8>) -> Result<(), AllocError> {
        text.extend_from_slice(b"from")?;
        for dart in &self.origins {
            append_spaced(text, dart.number())?;
        }
        text.push(b'\n')?;
        Ok(())
    }

    ghost ends = { λ l. inr (codes "from" ++ flat_map spaced l.origins.items, refl) };
}

/// Writes the line that says why a map has no half, and answers the status. Want of memory has no line.
fn refuse_map<S: Sink>(alloc: Global, out: &mut S, fault: OrientFault) -> u8
    ensures refused { IsRefused (S.written out.old) (S.written out.new) (Rose (S.faults out.old) (S.faults out.new)) (orient_line_of fault) result }
    ensures unwritten { result ≡ 6 → Rose (S.faults out.old) (S.faults out.new) }
    ensures later { S.faults out.old ≤ S.faults out.new }
    ensures range { (3 ≤ result) × (result ≤ 7) }
    ensures unread { result ≢ 5 }
{
    match orient_text(alloc, fault) {
        Ok(line) => write_last(out, line.as_slice(), 3),
        Err(_) => 7,
    }
}

/// The line that says why a map has no half, with its line feed. Want of memory has none.
fn orient_text(alloc: Global, fault: OrientFault) -> Result<Vec<u8>, AllocError>
    ensures { IfOk result (λ line. orient_line_of fault ≡ Some line.items) }
{
    let mut text = Vec::new(alloc);
    match fault {
        OrientFault::Boundary => text.extend_from_slice(b"half Boundary")?,
        OrientFault::Folded { dart, link } => {
            text.extend_from_slice(b"half Folded")?;
            append_spaced(&mut text, dart.number())?;
            append_spaced(&mut text, link)?;
        }
        OrientFault::Odd(walk) => {
            text.extend_from_slice(b"half odd")?;
            append_spaced(&mut text, walk.start.number())?;
        }
        OrientFault::NoMemory => return Err(AllocError),
    }
    text.push(b'\n')?;
    Ok(text)
}
