//! The OFF text of a map, written line by line.
ghost use Rattle.std.specs.Prelude.{◌≡◌, IfOk, IsErrOf};
ghost use Rattle.machine_defs.specs.OffText.{off_text};
ghost use Rattle.map_io.specs.Cause.{HasCause};
ghost use Rattle.text_lines.specs.Writing.{WritesText};
ghost use Rattle.off_text.specs.MapViews.{off_view};

use crate::{OffLine, OffRows};
use map_io::{PutFault, Sink, SureSink};
use std::alloc::{AllocError, Global};
use std::iter;
use text_lines::put_lines;

/// The OFF text of these rows: `OFF`, then a line that counts points, faces and edges, a line for each point, and one for each
/// face. Nothing is asked of the rows: they are written as they stand. The one error is want of memory.
pub fn write_off(alloc: Global, rows: &OffRows) -> Result<Vec<u8>, AllocError>
    ensures { IfOk result (λ text. text.items ≡ off_text (off_view rows.now)) }
{
    let mut out = SureSink::new(alloc);
    match put_off(alloc, &mut out, rows) {
        Ok(()) => Ok(out.into_written()),
        Err(_) => Err(AllocError),
    }
}

/// Puts the OFF text of these rows to a sink, each line in one piece. After `NoMemory` the sink has whole lines of the text,
/// and after `Failed` a front of it.
pub fn put_off<S: Sink>(alloc: Global, out: &mut S, rows: &OffRows) -> Result<(), PutFault>
    ensures written { WritesText (S.written out.old) (S.written out.new) result (off_text (off_view rows.now)) }
    ensures cause { HasCause (S.faults out.old) (S.faults out.new) (IsErrOf result PutFault.Failed) }
{
    let counts = OffLine::Counts {
        points: rows.points.len(),
        faces: rows.faces.len(),
        edges: rows.edges,
    };
    let lines = iter::once(OffLine::Header)
        .chain(iter::once(counts))
        .chain(rows.points.iter().map(OffLine::Point))
        .chain(rows.faces.iter().map(OffLine::Face));
    put_lines(alloc, out, lines)
}
