//! The line that replies to a changing line, written from its end.
ghost use Rattle.std.specs.Prelude.{◌≡◌, ◌+◌, ◌≤◌, [], ◌∷◌, ◌++◌, length, drop, codes};
ghost use Rattle.machine_defs.specs.Text.{done_text, spaced};

use itoa::write_digits;
use map_kind::Done;

/// How long the line is at most: `ok`, two numbers of ten digits, each behind a space, and a line feed.
pub(crate) const LONGEST: usize = 25;

/// Writes the reply to a changing line at the end of `line`, and answers where it starts. It is `ok`, and where darts were
/// made the first and how many.
pub(crate) fn write_done(line: &mut [u8; LONGEST], done: Done) -> usize
    ensures within { result ≤ 25 }
    ensures written { drop result line.new ≡ done_text done.first done.count }
{
    line[LONGEST - 1] = b'\n';
    let numbers = write_numbers(line, done);
    line[numbers - 1] = b'k';
    line[numbers - 2] = b'o';
    numbers - 2
}

/// Writes what stands behind `ok` before the line feed at the end of `line`, and answers where it starts.
fn write_numbers(line: &mut [u8; LONGEST], done: Done) -> usize
    requires { drop 24 line.old ≡ 10 ∷ [] }
    ensures within { (2 ≤ result) × (result ≤ 24) }
    ensures written { codes "ok" ++ drop result line.new ≡ done_text done.first done.count }
{
    if done.count == 0 {
        return LONGEST - 1;
    }
    let count = write_spaced(done.count, line, LONGEST - 1);
    write_spaced(done.first, line, count)
}

/// Writes a space and a number so that they end at `end`, and answers where they start.
fn write_spaced(number: u32, line: &mut [u8], end: usize) -> usize
    requires { (11 ≤ end) × (end ≤ length line.old) }
    ensures start { end ≤ result + 11 }
    ensures before { result ≤ end }
    ensures written { drop result line.new ≡ spaced number ++ drop end line.old }
{
    let digits = write_digits(number as u64, line, end);
    line[digits - 1] = b' ';
    digits - 1
}
