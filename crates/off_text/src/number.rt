//! The numbers that words write.
ghost use Rattle.std.specs.Prelude.{◌≡◌, ◌==◌, pos, neg_ℤ, ◌+◌, ◌*◌, ◌^◌, ◌<◌, ◌≤◌, min, Some, None, option_map, IsTrue, length, if◌then◌else◌};
ghost use Rattle.std.specs.List.{list_all, position_or_len};
ghost use Rattle.std.specs.Char.{is_ascii_digit};
ghost use Rattle.map_defs.specs.TextWords.{value_of};
ghost use Rattle.map_defs.specs.Off.{is_natural, is_below, is_point, magnitude, coordinate, held};
ghost use Rattle.off_text.specs.Meanings.{Finds};

use crate::OffWhat;
use text_words::{is_digits, read_numeral};

/// The natural number that a word writes, or `u64::MAX` where it is greater; none exactly where the word is not one or more
/// digits.
fn read_natural(word: &[u8]) -> Option<u64>
    ensures { result ≡ (if is_natural word.now then Some (min (value_of word.now) u64.MAX) else None) }
{
    // Most words are numerals, which are read at once.
    if let Some(value) = read_numeral(word) {
        return Some(value);
    }
    if word.is_empty() || !is_digits(word) {
        return None;
    }
    Some(capped_value(word))
}

/// The number of a word of digits, or `u64::MAX` where it is greater.
fn capped_value(word: &[u8]) -> u64
    requires { IsTrue (list_all is_ascii_digit word.now) }
    ensures { result ≡ min (value_of word.now) u64.MAX }
{
    let mut value = 0u64;
    for digit in word {
        value = value
            .saturating_mul(10)
            .saturating_add(u64::from(*digit - b'0'));
    }
    value
}

/// The natural number below `bound` that a word writes; none exactly where it writes none.
pub fn read_below(bound: u32, word: &[u8]) -> Option<u32>
    ensures { result ≡ (if is_below bound word.now then Some (value_of word.now) else None) }
{
    let value = read_natural(word)?;
    if value < u64::from(bound) {
        Some(value as u32)
    } else {
        None
    }
}

/// The natural number below 2^32 that a word writes; none exactly where it writes none.
pub fn read_count(word: &[u8]) -> Option<u32>
    ensures { result ≡ (if is_below (2 ^ 32) word.now then Some (value_of word.now) else None) }
{
    u32::try_from(read_natural(word)?).ok()
}

/// The coordinate that a word writes: digits behind a sign or none, and before a decimal point and zeros or nothing.
pub fn read_coordinate(word: &[u8]) -> Result<i64, OffWhat>
    ensures { Finds (λ z. z) result (coordinate word.now) }
{
    match word {
        [b'-', digits @ ..] => negative(read_magnitude(digits).ok_or(OffWhat::NotInteger)?),
        [b'+', digits @ ..] => positive(read_magnitude(digits).ok_or(OffWhat::NotInteger)?),
        _ => positive(read_magnitude(word).ok_or(OffWhat::NotInteger)?),
    }
}

/// The number of a coordinate without a sign, or `u64::MAX` where it is greater.
fn read_magnitude(word: &[u8]) -> Option<u64>
    ensures { result ≡ option_map (λ n. min n u64.MAX) (magnitude word.now) }
{
    let end = whole_end(word);
    let value = read_natural(&word[..end])?;
    if end < word.len() && !are_zeros(&word[end + 1..]) {
        return None;
    }
    Some(value)
}

/// Where the decimal point stands, or else the end of the word.
fn whole_end(word: &[u8]) -> usize
    ensures place { result ≡ position_or_len is_point word.now }
    ensures within { result ≤ length word.now }
{
    word.iter()
        .position(|byte| *byte == b'.')
        .unwrap_or(word.len())
}

fn are_zeros(digits: &[u8]) -> bool
    ensures { result ≡ list_all (λ b. b == 48) digits.now }
{
    digits.iter().all(|byte| *byte == b'0')
}

fn positive(magnitude: u64) -> Result<i64, OffWhat>
    ensures { Finds (λ z. z) result (held (Some (pos magnitude))) }
{
    i64::try_from(magnitude).map_err(|_| OffWhat::OutOfRange)
}

fn negative(magnitude: u64) -> Result<i64, OffWhat>
    ensures { Finds (λ z. z) result (held (Some (neg_ℤ (pos magnitude)))) }
{
    0i64.checked_sub_unsigned(magnitude)
        .ok_or(OffWhat::OutOfRange)
}
