//! The front of a line, which may end with a comment: its first word, or the number that this word writes.
ghost use Rattle.std.specs.Prelude.{◌≡◌, ◌≤◌, [], ◌∷◌, length, take, drop, true, false, ℕ, List};
ghost use Rattle.std.specs.Char.{is_ascii_digit};
ghost use Rattle.std.specs.List.{list_all, position_or_len};
ghost use Rattle.map_defs.specs.TextWords.{words_of, is_blank, value_of};
ghost use Rattle.script_text.specs.Fronts.{TakesFirst, TakesNumber, ends_word, is_behind_word, is_padded, blanks};

/// What stands at the front of a line where a number is wanted.
#[derive(Debug, PartialEq, Eq, Drop)]
pub enum Front<'a> {
    /// There is no word.
    End,
    /// The first word writes this number, and this stands behind it.
    Number(u64, &'a [u8]),
    /// The first word is no numeral.
    Other,
}

/// The first word of a line, and what stands behind it; none exactly where there is no word.
pub fn take_first(line: &[u8]) -> Option<(&[u8], &[u8])>
    ensures { TakesFirst result (words_of line.now) }
{
    let words = &line[blanks(line)..];
    match word_len(words) {
        0 => None,
        len => Some(words.split_at(len)),
    }
}

/// How many blanks stand at the front.
fn blanks(line: &[u8]) -> usize
    ensures place { result ≡ blanks line.now }
    ensures within { result ≤ length line.now }
{
    line.iter()
        .position(|byte| !is_blank(*byte))
        .unwrap_or(line.len())
}

/// Where the first blank or comment stands, or else the end of the line.
fn word_len(line: &[u8]) -> usize
    ensures place { result ≡ position_or_len ends_word line.now }
    ensures within { result ≤ length line.now }
{
    line.iter()
        .position(|byte| ends_word(*byte))
        .unwrap_or(line.len())
}

/// Whether a byte ends the word before it: a blank, or the sign that begins a comment.
fn ends_word(byte: u8) -> bool
    ensures { result ≡ ends_word byte }
{
    is_blank(byte) || byte == b'#'
}

fn is_blank(byte: u8) -> bool
    ensures { result ≡ is_blank byte }
{
    byte == b' ' || byte == b'\t' || byte == b'\r'
}

/// The number that the first word of a line writes, and what stands behind it. Each byte is read once.
pub fn take_number(line: &[u8]) -> Front<'_>
    ensures { TakesNumber result (words_of line.now) }
{
    number_at_front(&line[blanks(line)..])
}

/// The number that a line begins with, if it begins with no blank.
fn number_at_front(line: &[u8]) -> Front<'_>
    requires { blanks line.now ≡ 0 }
    ensures { TakesNumber result (words_of line.now) }
{
    let mut value = 0;
    let mut digits = 0;
    for byte in line {
        if !byte.is_ascii_digit() {
            return number_of_digits(line, digits, value);
        }
        // No numeral is longer.
        if digits == 19 {
            return Front::Other;
        }
        value = 10 * value + u64::from(*byte - b'0');
        digits += 1;
    }
    number_of_digits(line, digits, value)
}

/// The number that a line begins with, if it begins with no blank, and with so many digits of that value.
fn number_of_digits(line: &[u8], digits: usize, value: u64) -> Front<'_>
    requires begins { blanks line.now ≡ 0 }
    requires within { digits ≤ length line.now }
    requires few { digits ≤ 19 }
    requires all { list_all is_ascii_digit (take digits line.now) ≡ true }
    requires more { (byte : ℕ) (others : List ℕ) → drop digits line.now ≡ byte ∷ others → is_ascii_digit byte ≡ false }
    requires value { value ≡ value_of (take digits line.now) }
    ensures { TakesNumber result (words_of line.now) }
{
    let (word, rest) = line.split_at(digits);
    if !is_behind_word(rest) {
        return Front::Other;
    }
    if word.is_empty() {
        return Front::End;
    }
    if is_padded(word) {
        return Front::Other;
    }
    Front::Number(value, rest)
}

/// Whether something stands behind a first 0.
fn is_padded(word: &[u8]) -> bool
    ensures { result ≡ is_padded word.now }
{
    matches!(word, [b'0', _, ..])
}

/// Whether nothing of a word stands here.
fn is_behind_word(rest: &[u8]) -> bool
    ensures { result ≡ is_behind_word rest.now }
{
    match rest {
        [] => true,
        [byte, ..] => ends_word(*byte),
    }
}
