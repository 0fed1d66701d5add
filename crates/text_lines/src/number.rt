//! Numbers on a line.
ghost use Rattle.std.specs.Prelude.{◌∷◌};
ghost use Rattle.text_lines.specs.Writing.{Appends};

use itoa::{Buffer, Integer};
use std::alloc::AllocError;

/// Appends a space and a number in decimal digits, behind a minus sign where it is below 0. After want of memory what was
/// there stays, and behind it stands a front of these.
pub fn append_spaced<I: Integer>(text: &mut Vec<u8>, number: I) -> Result<(), AllocError>
    ensures { Appends text.old.items text.new.items (32 ∷ I.text number) result }
{
    text.push(b' ')?;
    append_number(text, number)
}

/// Appends a number in decimal digits, behind a minus sign where it is below 0. After want of memory what was there stays,
/// and behind it stands a front of the number.
pub fn append_number<I: Integer>(text: &mut Vec<u8>, number: I) -> Result<(), AllocError>
    ensures { Appends text.old.items text.new.items (I.text number) result }
{
    text.extend_from_slice(Buffer::new().format(number).as_bytes())
}
