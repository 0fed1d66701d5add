//! The rows of a text: its lines that have words, one after the other.
ghost use Rattle.std.specs.Prelude.{◌≡◌, ◌+◌, ◌-◌, ◌≤◌, ◌<◌, ◌∷◌, length, not, true, Ok, IfSome};
ghost use Rattle.std.specs.List.{position_or_len, list_all};
ghost use Rattle.map_defs.specs.TextWords.{uncommented, is_text};
ghost use Rattle.map_defs.specs.Off.{lines_of, next, checked};
ghost use Rattle.off_text.specs.Meanings.{meaning, Gives};
ghost use Rattle.off_text.specs.Reading.{is_line_feed, is_plain};
ghost use Rattle.text_words.specs.Taking.{words_in};
ghost use Rattle.off_text.specs.Views.{row_view, cursor_view, IsNext};

use crate::cursor::{Cursor, Row};
use crate::{OffFault, OffWhat};
use text_words::{are_text, is_text, take_word, without_comment};

/// The next row, and what is left behind it. Where the text ends, `missing` is the fault, on the line behind the last.
pub fn next(cursor: Cursor, missing: OffWhat) -> Result<(Row, Cursor), OffFault>
    ensures { Gives (λ x. (row_view x.0, cursor_view x.1)) result (next (meaning missing) (cursor_view cursor.entry)) }
{
    if let Some(found) = plain_row(cursor) {
        return Ok(found);
    }
    match next_row(cursor) {
        Ok((row, left)) => {
            check_text(row)?;
            Ok((row, left))
        }
        Err(last) => Err(OffFault::Bad {
            line: last + 1,
            what: missing,
        }),
    }
}

/// The next row, and what is left behind it, where it stands on the very next line, which is plain. So most rows are read, by one
/// look at each byte of the line.
fn plain_row(cursor: Cursor) -> Option<(Row, Cursor)>
    ensures next { IfSome result (λ x. IsNext (Ok x) (cursor_view cursor.entry)) }
    ensures text { IfSome result (λ x. checked (row_view x.0) ≡ Ok (row_view x.0)) }
{
    let (text, rest) = plain_line(cursor.rest)?;
    let (first, others) = take_word(text)?;
    let line = cursor.line + 1;
    let row = Row {
        line,
        first,
        others,
    };
    Some((row, Cursor { line, rest }))
}

/// The first line of a text, and the text behind its line feed, where the line is plain: it ends with a line feed, has no comment,
/// and all its words are text.
fn plain_line(text: &[u8]) -> Option<(&[u8], &[u8])>
    ensures lines { IfSome result (λ x. lines_of text.now ≡ x.0.now ∷ lines_of x.1.now) }
    ensures shorter { IfSome result (λ x. length x.1.now < length text.now) }
    ensures whole { IfSome result (λ x. uncommented x.0.now ≡ x.0.now) }
    ensures words { IfSome result (λ x. list_all is_text (words_in x.0.now) ≡ true) }
{
    let end = plain_end(text);
    if end == text.len() || text[end] != b'\n' {
        return None;
    }
    Some((&text[..end], &text[end + 1..]))
}

/// Where the first byte stands that is not plain, or else the end of the text.
fn plain_end(text: &[u8]) -> usize
    ensures place { result ≡ position_or_len (λ b. not (is_plain b)) text.now }
    ensures within { result ≤ length text.now }
{
    text.iter()
        .position(|byte| !is_plain(*byte))
        .unwrap_or(text.len())
}

fn is_plain(byte: u8) -> bool
    ensures { result ≡ is_plain byte }
{
    if byte.is_ascii_graphic() {
        return byte != b'#';
    }
    byte == b' ' || byte == b'\t' || byte == b'\r'
}

/// The next row, and what is left behind it; or the number of the last line, where no row follows.
pub fn next_row(cursor: Cursor) -> Result<(Row, Cursor), u32>
    ensures { IsNext result (cursor_view cursor.entry) }
{
    let mut line = cursor.line;
    let mut rest = cursor.rest;
    while !rest.is_empty() {
        let (text, after) = split_line(rest);
        line += 1;
        rest = after;
        if let Some((first, others)) = take_word(without_comment(text)) {
            let row = Row {
                line,
                first,
                others,
            };
            return Ok((row, Cursor { line, rest }));
        }
    }
    Err(line)
}

/// Refuses a row that is not text.
pub fn check_text(row: Row) -> Result<(), OffFault>
    ensures { Gives (λ _. row_view row.entry) result (checked (row_view row.entry)) }
{
    if is_text(row.first) && are_text(row.others) {
        Ok(())
    } else {
        Err(OffFault::Bad {
            line: row.line,
            what: OffWhat::NotText,
        })
    }
}

/// The first line of a text, and the text behind its line feed.
fn split_line(text: &[u8]) -> (&[u8], &[u8])
    requires { 0 < length text.now }
    ensures lines { lines_of text.now ≡ result.0.now ∷ lines_of result.1.now }
    ensures shorter { length result.1.now < length text.now }
{
    let end = line_end(text);
    if end < text.len() {
        (&text[..end], &text[end + 1..])
    } else {
        (text, &text[end..])
    }
}

/// Where the first line feed stands, or else the end of the text.
fn line_end(text: &[u8]) -> usize
    ensures place { result ≡ position_or_len is_line_feed text.now }
    ensures within { result ≤ length text.now }
{
    text.iter()
        .position(|byte| *byte == b'\n')
        .unwrap_or(text.len())
}
