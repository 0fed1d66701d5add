//! The text of a listing, written line by line.
ghost use Rattle.std.specs.Prelude.{◌≡◌, IfOk, IsErrOf};
ghost use Rattle.machine_defs.specs.Text.{listing_text};
ghost use Rattle.map_io.specs.Cause.{HasCause};
ghost use Rattle.text_lines.specs.Writing.{WritesText};

use crate::{ListLine, Listing};
use map_io::{PutFault, Sink, SureSink};
use std::alloc::{AllocError, Global};
use std::iter;
use text_lines::put_lines;

/// The text of a listing, in version 2 of this project's format: a line that names the kind, the dimension, how many darts
/// were made and how many rows there are, then a line for each row, each rule, each value and each mark, and `end`. Nothing is asked of
/// the listing: it is written as it stands, whatever its dimension, its darts and their order. The one error is want of
/// memory.
pub fn write_listing(alloc: Global, listing: &Listing) -> Result<Vec<u8>, AllocError>
    ensures { IfOk result (λ text. text.items ≡ listing_text listing.now) }
{
    let mut out = SureSink::new(alloc);
    match put_listing(alloc, &mut out, listing) {
        Ok(()) => Ok(out.into_written()),
        Err(_) => Err(AllocError),
    }
}

/// Puts the text of a listing to a sink, each line in one piece. After `NoMemory` the sink has whole lines of the text, and
/// after `Failed` a front of it.
pub fn put_listing<S: Sink>(alloc: Global, out: &mut S, listing: &Listing) -> Result<(), PutFault>
    ensures written { WritesText (S.written out.old) (S.written out.new) result (listing_text listing.now) }
    ensures cause { HasCause (S.faults out.old) (S.faults out.new) (IsErrOf result PutFault.Failed) }
{
    let header = ListLine::Header {
        letter: listing.letter,
        dim: listing.dim,
        made: listing.made,
        live: listing.rows.len(),
    };
    let lines = iter::once(header)
        .chain(listing.rows.iter().map(ListLine::Row))
        .chain(listing.rules.iter().map(ListLine::Rule))
        .chain(listing.values.iter().map(ListLine::Value))
        .chain(listing.marks.iter().map(ListLine::Mark))
        .chain(iter::once(ListLine::End));
    put_lines(alloc, out, lines)
}
