//! Text that is written line by line: things that are a line of text, and their way to a sink.
#![tactic(auto)]

mod line;
mod number;
mod put;

pub use line::TextLine;
pub use number::{append_number, append_spaced};
pub use put::{put_line, put_line_over, put_lines};
