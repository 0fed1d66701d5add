//! Things that are a line of text.
ghost use Rattle.std.specs.Prelude.{ℕ, List};
ghost use Rattle.machine_defs.specs.Program.{EndsLine};
ghost use Rattle.text_lines.specs.Writing.{Appends};

use std::alloc::AllocError;

/// Something that is a line of text.
pub trait TextLine {
    /// The line, with the line feed at its end; or nothing, where there is nothing to say.
    ghost line: { Self → List ℕ };

    /// Appends the line. The one error is want of memory: then what was there stays, and behind it stands a front of the line.
    fn append_to(&self, text: &mut Vec<u8>) -> Result<(), AllocError>
        ensures { Appends text.old.items text.new.items (line self.now) result };

    /// A line feed ends the line, unless it is empty.
    ghost ends: { (one : Self) → EndsLine (line one) };
}
