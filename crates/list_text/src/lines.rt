//! The lines of a text, one after the other.
ghost use Rattle.std.specs.Prelude.{◌≡◌, ◌<◌, length, IfOk};
ghost use Rattle.machine_defs.specs.ListingForm.{next_line};
ghost use Rattle.list_text.specs.Meanings.{Gives};
ghost use Rattle.list_text.specs.Views.{cursor_view};

use crate::cursor::Cursor;
use crate::cut::cut;
use crate::{ListFault, ListWhat};

/// The next line without its line feed, and what is left behind it. Where no line feed stands, the next line is a fault.
pub(crate) fn next_line(cursor: Cursor) -> Result<(&[u8], Cursor), ListFault>
    ensures line { Gives (λ x. (x.0.now, cursor_view x.1)) result (next_line (cursor_view cursor.entry)) }
    ensures shorter { IfOk result (λ x. length x.1.rest.now < length cursor.entry.rest.now) }
{
    match cut(cursor.rest, b'\n') {
        Some((text, rest)) => {
            let line = cursor.line + 1;
            Ok((text, Cursor { line, rest }))
        }
        None => Err(bad(cursor.line + 1, ListWhat::Form)),
    }
}

/// A fault on a line.
pub(crate) fn bad(line: u32, what: ListWhat) -> ListFault
    ensures { result ≡ ListFault.Bad line what }
{
    ListFault::Bad { line, what }
}
