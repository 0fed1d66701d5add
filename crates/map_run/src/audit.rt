//! The audit of a listing: it is read and written again, with the counts of its map.
ghost use Rattle.std.specs.Prelude.{◌≡◌, ◌≢◌, ◌≤◌, ℕ, List, Some, length, IsErrOf};
ghost use Rattle.machine_defs.specs.Auditing.{AuditAnswer};
ghost use Rattle.machine_defs.specs.Outside.{Files, Rose};
ghost use Rattle.machine_defs.specs.Program.{TellsCommand, Audit};
ghost use Rattle.machine_defs.specs.Text.{replies_text};
ghost use Rattle.map_defs.specs.Values.{Hook};
ghost use Rattle.map_io.specs.Cause.{HasCause};
ghost use Rattle.text_lines.specs.Writing.{WritesText};
ghost use Rattle.map_run.specs.Ending.{EndsCall, EndsAnswer};
ghost use Rattle.map_run.specs.Audits.{shows, IsCounted};

use crate::last::{put_status, write_unfetched};
use crate::refused::refuse_listing;
use list_text::{LISTING_MAX, ListFault, Listing, listing_counts, put_listing, read_listing};
use map_io::{PutFault, Shelf, Sink};
use script_text::Reply;
use std::alloc::Global;
use text_lines::put_line;

/// Fetches a listing and writes it again with the counts of its map; or writes the line that says why it was not fetched, or
/// what its first fault is. Answers the status.
pub fn audit<F: Shelf, S: Sink>(alloc: Global, name: &str, shelf: &mut F, out: &mut S) -> u8
    requires asked { F.may_ask shelf.old name.now }
    ensures outcome { (hook : Hook) (words : List (List ℕ)) (files : Files) → TellsCommand words (Audit name.now)
        → F.holds shelf.old ≡ Some files →
        EndsCall hook (S.written out.old) (S.written out.new) words files
        (Rose (F.faults shelf.old) (F.faults shelf.new)) (Rose (S.faults out.old) (S.faults out.new)) result }
    ensures command { result ≢ 2 }
    ensures range { result ≤ 7 }
    ensures unread { result ≡ 5 → Rose (F.faults shelf.old) (F.faults shelf.new) }
    ensures unwritten { result ≡ 6 → Rose (S.faults out.old) (S.faults out.new) }
    ensures later { S.faults out.old ≤ S.faults out.new }
{
    match shelf.fetch(alloc, name, LISTING_MAX) {
        Ok(bytes) => audit_bytes(alloc, &bytes, out),
        Err(fault) => write_unfetched(out, fault),
    }
}

/// The audit of the bytes of a listing.
fn audit_bytes<S: Sink>(alloc: Global, bytes: &[u8], out: &mut S) -> u8
    requires { length bytes.now ≤ LISTING_MAX }
    ensures ends { EndsAnswer (AuditAnswer bytes.now) (Rose (S.faults out.old) (S.faults out.new)) (S.written out.old) (S.written out.new) result }
    ensures unwritten { result ≡ 6 → Rose (S.faults out.old) (S.faults out.new) }
    ensures later { S.faults out.old ≤ S.faults out.new }
    ensures command { result ≢ 2 }
    ensures unread { result ≢ 5 }
    ensures range { result ≤ 7 }
{
    match read_counted(alloc, bytes) {
        Ok((listing, counts)) => put_status(put_audit(alloc, &listing, counts, out), 0),
        Err(fault) => refuse_listing(alloc, out, fault),
    }
}

/// The listing that a text tells, and the counts of its map.
fn read_counted(alloc: Global, bytes: &[u8]) -> Result<(Listing, Vec<u64>), ListFault>
    requires { length bytes.now ≤ LISTING_MAX }
    ensures { IsCounted bytes.now result }
{
    let listing = read_listing(alloc, bytes)?;
    let counts = listing_counts(alloc, &listing)?;
    Ok((listing, counts))
}

/// Writes a listing, and then the counts of its map.
fn put_audit<S: Sink>(
    alloc: Global,
    listing: &Listing,
    counts: Vec<u64>,
    out: &mut S,
) -> Result<(), PutFault>
    ensures written { WritesText (S.written out.old) (S.written out.new) result (replies_text (shows listing.now counts.items)) }
    ensures cause { HasCause (S.faults out.old) (S.faults out.new) (IsErrOf result PutFault.Failed) }
{
    put_listing(alloc, out, listing)?;
    put_line(alloc, out, &Reply::Count(counts))
}
