//! Lines that are put to a sink.
ghost use Rattle.std.specs.Prelude.{ℕ, List, IsErrOf};
ghost use Rattle.std.specs.Iterator.{IsFinite};
ghost use Rattle.std.specs.List.{concat};
ghost use Rattle.std.proofs.lemmas.Iterator.{YieldsList};
ghost use Rattle.machine_defs.specs.Program.{EndsLine};
ghost use Rattle.map_io.specs.Cause.{HasCause};
ghost use Rattle.text_lines.specs.Writing.{WritesText};

use crate::TextLine;
use map_io::{PutFault, Sink};
use std::alloc::Global;

/// Puts lines to a sink one after the other, each in one piece. After `NoMemory` the sink has whole lines of the text, and
/// after `Failed` a front of it.
pub fn put_lines<L: TextLine + Drop, I: Iterator<Item = L> + Drop, S: Sink>(
    alloc: Global,
    out: &mut S,
    lines: I,
) -> Result<(), PutFault>
    requires can { I.can_next lines }
    requires finite { IsFinite (I.remaining lines) }
    // `texts` are the texts of the lines that the iterator yields
    ensures written { (texts : List (List ℕ)) → YieldsList I.next_gives L.line lines texts →
        WritesText (S.written out.old) (S.written out.new) result (concat texts) }
    ensures cause { HasCause (S.faults out.old) (S.faults out.new) (IsErrOf result PutFault.Failed) }
{
    let mut text = Vec::new(alloc);
    for line in lines {
        put_line_over(&mut text, out, &line)?;
    }
    Ok(())
}

/// Puts a line to a sink in one piece. After `NoMemory` the sink has none of it, and after `Failed` a front.
pub fn put_line<L: TextLine, S: Sink>(alloc: Global, out: &mut S, line: &L) -> Result<(), PutFault>
    ensures written { WritesText (S.written out.old) (S.written out.new) result (L.line line.now) }
    ensures cause { HasCause (S.faults out.old) (S.faults out.new) (IsErrOf result PutFault.Failed) }
{
    let mut text = Vec::new(alloc);
    put_line_over(&mut text, out, line)
}

/// Puts a line to a sink in one piece, as [`put_line`] does. The line is first written over what stands in `text`, so that many
/// lines share its memory.
pub fn put_line_over<L: TextLine, S: Sink>(
    text: &mut Vec<u8>,
    out: &mut S,
    line: &L,
) -> Result<(), PutFault>
    ensures written { WritesText (S.written out.old) (S.written out.new) result (L.line line.now) }
    ensures cause { HasCause (S.faults out.old) (S.faults out.new) (IsErrOf result PutFault.Failed) }
{
    text.clear();
    match line.append_to(text) {
        Ok(()) => put_some(out, text.as_slice()),
        Err(_) => Err(PutFault::NoMemory),
    }
}

/// Puts whole lines in one piece, or nothing where there are none.
fn put_some<S: Sink>(out: &mut S, piece: &[u8]) -> Result<(), PutFault>
    requires { EndsLine piece.now }
    ensures written { WritesText (S.written out.old) (S.written out.new) result piece.now }
    ensures cause { HasCause (S.faults out.old) (S.faults out.new) (IsErrOf result PutFault.Failed) }
{
    if piece.is_empty() {
        return Ok(());
    }
    out.put(piece)
}
