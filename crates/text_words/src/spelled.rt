//! The numbers and names that words write.
ghost use Rattle.std.specs.Prelude.{◌≡◌, ◌+◌, ◌*◌, ◌<◌, ◌==◌, nat_le, Some, None, if◌then◌else◌};
ghost use Rattle.std.specs.List.{list_all};
ghost use Rattle.std.specs.Option.{option_copied};
ghost use Rattle.machine_defs.specs.Script.{numeral, positive, negative, integer, is_name_byte, is_name, name};
ghost use Rattle.text_words.specs.Numerals.{may_be_numeral};

/// The number that a word writes; none exactly where it is no numeral: `0`, or at most 19 digits of which the first is
/// not 0.
pub fn read_numeral(word: &[u8]) -> Option<u64>
    ensures { result ≡ numeral word.now }
{
    if !may_be_numeral(word) {
        return None;
    }
    let mut value = 0;
    for byte in word {
        if !byte.is_ascii_digit() {
            return None;
        }
        value = 10 * value + u64::from(*byte - b'0');
    }
    Some(value)
}

/// Whether a word is a numeral if it consists of digits.
fn may_be_numeral(word: &[u8]) -> bool
    ensures { result ≡ may_be_numeral word.now }
{
    match word {
        [] => false,
        [b'0', others @ ..] => others.is_empty(),
        [_, others @ ..] => others.len() <= 18,
    }
}

/// The integer that a word writes; none exactly where it is neither a numeral nor `-` and a numeral other than 0, or is out
/// of the range of 64 bits.
pub fn read_integer(word: &[u8]) -> Option<i64>
    ensures { result ≡ integer word.now }
{
    match word {
        [b'-', digits @ ..] => negative(read_numeral(digits)?),
        _ => positive(read_numeral(word)?),
    }
}

fn positive(number: u64) -> Option<i64>
    ensures { result ≡ positive number }
{
    i64::try_from(number).ok()
}

fn negative(number: u64) -> Option<i64>
    ensures { result ≡ negative number }
{
    if number == 0 {
        return None;
    }
    0i64.checked_sub_unsigned(number)
}

/// The name that a word writes; none exactly where it does not have 1 to 32 small letters, digits and underscores.
pub fn read_name(word: &[u8]) -> Option<&str>
    ensures { option_copied result ≡ name word.now }
{
    if !is_name(word) {
        return None;
    }
    str::from_utf8(word).ok()
}

fn is_name(word: &[u8]) -> bool
    ensures { result ≡ is_name word.now }
{
    1 <= word.len() && word.len() <= 32 && are_name_bytes(word)
}

fn are_name_bytes(word: &[u8]) -> bool
    ensures { result ≡ list_all is_name_byte word.now }
{
    word.iter().all(|byte| is_name_byte(*byte))
}

fn is_name_byte(byte: u8) -> bool
    ensures { result ≡ is_name_byte byte }
{
    byte.is_ascii_lowercase() || byte.is_ascii_digit() || byte == b'_'
}
