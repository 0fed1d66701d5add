//! Words, which stand between spaces, tabs and carriage returns.
ghost use Rattle.std.specs.Prelude.{◌≡◌, ◌≤◌, length, map, not, IfOk};
ghost use Rattle.std.specs.Char.{is_ascii_digit};
ghost use Rattle.std.specs.List.{list_all, position_or_len};
ghost use Rattle.map_defs.specs.TextWords.{is_blank, is_text};
ghost use Rattle.text_words.specs.Taking.{words_in, TakesWord};

use std::alloc::{AllocError, Global};

/// The words of a text without comments. The one error is want of memory.
pub fn split_words(alloc: Global, text: &[u8]) -> Result<Vec<&[u8]>, AllocError>
    ensures { IfOk result (λ words. map (λ word. word.now) words.items ≡ words_in text.now) }
{
    text.split(|byte| is_blank(*byte))
        .filter(|piece| !piece.is_empty())
        .collect(alloc)
}

/// The first word of a text without comments, and what stands behind it; none exactly where there is no word.
pub fn take_word(text: &[u8]) -> Option<(&[u8], &[u8])>
    ensures { TakesWord result (words_in text.now) }
{
    let text = &text[blanks(text)..];
    if text.is_empty() {
        return None;
    }
    Some(text.split_at(word_end(text)))
}

/// How many blanks stand at the front.
fn blanks(text: &[u8]) -> usize
    ensures place { result ≡ position_or_len (λ b. not (is_blank b)) text.now }
    ensures within { result ≤ length text.now }
{
    text.iter()
        .position(|byte| !is_blank(*byte))
        .unwrap_or(text.len())
}

/// Where the first blank stands, or else the end of the text.
fn word_end(text: &[u8]) -> usize
    ensures place { result ≡ position_or_len is_blank text.now }
    ensures within { result ≤ length text.now }
{
    text.iter()
        .position(|byte| is_blank(*byte))
        .unwrap_or(text.len())
}

fn is_blank(byte: u8) -> bool
    ensures { result ≡ is_blank byte }
{
    byte == b' ' || byte == b'\t' || byte == b'\r'
}

/// Whether all bytes of a word are printed characters of ASCII, 33 to 126.
pub fn is_text(word: &[u8]) -> bool
    ensures { result ≡ is_text word.now }
{
    word.iter().all(|byte| byte.is_ascii_graphic())
}

/// Whether all words of a text without comments are text.
pub fn are_text(text: &[u8]) -> bool
    ensures { result ≡ list_all is_text (words_in text.now) }
{
    text.iter()
        .all(|byte| is_blank(*byte) || byte.is_ascii_graphic())
}

/// Whether all bytes of a word are digits.
pub fn is_digits(word: &[u8]) -> bool
    ensures { result ≡ list_all is_ascii_digit word.now }
{
    word.iter().all(|byte| byte.is_ascii_digit())
}
