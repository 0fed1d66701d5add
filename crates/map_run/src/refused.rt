//! The line that says what the first fault of a listing is.
ghost use Rattle.std.specs.Prelude.{◌≡◌, ◌≢◌, ◌≤◌, Some, IfOk};
ghost use Rattle.machine_defs.specs.Outside.{Rose};
ghost use Rattle.map_run.specs.Ending.{IsRefused};
ghost use Rattle.map_run.specs.Audits.{line_of};

use crate::last::write_last;
use list_text::ListFault;
use map_io::Sink;
use std::alloc::{AllocError, Global};
use text_lines::append_spaced;

/// Writes the line that says what the first fault of a listing is, and answers the status.
pub fn refuse_listing<S: Sink>(alloc: Global, out: &mut S, fault: ListFault) -> u8
    ensures refused { IsRefused (S.written out.old) (S.written out.new) (Rose (S.faults out.old) (S.faults out.new)) (line_of fault) result }
    ensures unwritten { result ≡ 6 → Rose (S.faults out.old) (S.faults out.new) }
    ensures later { S.faults out.old ≤ S.faults out.new }
    ensures range { (3 ≤ result) × (result ≤ 7) }
    ensures unread { result ≢ 5 }
{
    match fault_text(alloc, fault) {
        Ok(line) => write_last(out, line.as_slice(), 3),
        Err(_) => 7,
    }
}

/// The line of a fault, with its line feed. Want of memory has none.
fn fault_text(alloc: Global, fault: ListFault) -> Result<Vec<u8>, AllocError>
    ensures { IfOk result (λ line. line_of fault ≡ Some line.items) }
{
    let ListFault::Bad { line, what } = fault else {
        return Err(AllocError);
    };
    let mut text = Vec::from_slice(alloc, b"listing line")?;
    append_spaced(&mut text, line)?;
    text.push(b' ')?;
    text.extend_from_slice(what.name().as_bytes())?;
    text.push(b'\n')?;
    Ok(text)
}
