//! The lines of a listing, each by itself.
ghost use Rattle.std.specs.Prelude.{◌≡◌, ◌≤◌, IfSome, IfOk};
ghost use Rattle.std.specs.Option.{option_map};
ghost use Rattle.map_defs.specs.Rows.{made_max};
ghost use Rattle.machine_defs.specs.Script.{value};
ghost use Rattle.machine_defs.specs.ListingLines.{numeral_within, kind_named, header_of, entries, entries_behind, row_of, rule_of, value_of};
ghost use Rattle.list_text.specs.Letters.{kind_named as kind_of, IsLetter};
ghost use Rattle.list_text.specs.Views.{words_left, header_view, items_of, first_entry};

use crate::ListRow;
use crate::cut::cut;
use crate::words::Words;
use attr_rules::{TableRule, merge_listed, split_listed};
use link_rows::MADE_MAX;
use map_kind::{Dart, Value};
use std::alloc::{AllocError, Global};
use std::marker::Model;
use text_words::{read_integer, read_name, read_numeral};

/// What a listing's first line tells.
#[derive(Clone, Copy)]
pub(crate) struct Header {
    /// The version of the format, 1 or 2.
    pub version: u32,
    pub letter: u8,
    pub dim: u32,
    pub made: u32,
    /// How many darts are live, and so how many rows follow.
    pub live: u32,
}

/// A rule as its line tells it: the dimension may be that of no map.
#[derive(Clone, Copy)]
pub(crate) struct ToldRule {
    pub dim: u64,
    pub rule: TableRule,
}

impl Model for ToldRule {
    ghost use Rattle.machine_defs.specs.Listing as listing;

    ghost Value = { listing.ListRule };

    ghost view = { λ r. record { dim = r.dim; rule = r.rule } };

    ghost inverse = { λ r. record { dim = r.dim; rule = r.rule } };
}

/// A value as its line tells it: the dimension and the dart may be those of no map.
#[derive(Clone, Copy)]
pub(crate) struct ToldValue {
    pub dim: u64,
    pub dart: u64,
    pub value: Value,
}

impl Model for ToldValue {
    ghost use Rattle.machine_defs.specs.Listing as listing;

    ghost Value = { listing.ListValue };

    ghost view = { λ v. record { dim = v.dim; dart = v.dart; value = v.value } };

    ghost inverse = { λ v. record { dim = v.dim; dart = v.dart; value = v.value } };
}

/// What the words of the first line tell: `cellmap`, and five words.
pub(crate) fn header_of(words: Words) -> Option<Header>
    ensures header { option_map header_view result ≡ header_of (words_left words.entry) }
    ensures letter { IfSome result (λ header. IsLetter header.letter) }
    ensures low { IfSome result (λ header. 2 ≤ header.dim) }
    ensures dim { IfSome result (λ header. header.dim ≤ 4) }
    ensures made { IfSome result (λ header. header.made ≤ made_max) }
{
    let (first, words) = words.take()?;
    let (version, words) = words.take()?;
    let (kind, words) = words.take()?;
    let (dim, words) = words.take()?;
    let (made, words) = words.take()?;
    let (live, words) = words.take()?;
    if words.take().is_some() || first != b"cellmap".as_slice() {
        return None;
    }
    let version = numeral_within(1, 2, version)?;
    let letter = letter_of(kind)?;
    let dim = numeral_within(2, 4, dim)?;
    let made = numeral_within(0, MADE_MAX, made)?;
    let live = numeral_within(0, made, live)?;
    Some(Header {
        version,
        letter,
        dim,
        made,
        live,
    })
}

/// The letter of a kind, if the word is one.
fn letter_of(word: &[u8]) -> Option<u8>
    ensures kind { option_map kind_of result ≡ kind_named word.now }
    ensures letter { IfSome result (λ letter. IsLetter letter) }
{
    if word == b"g".as_slice() {
        return Some(b'g');
    }
    if word == b"c".as_slice() {
        return Some(b'c');
    }
    None
}

/// The number from `low` to `high` that a word writes; none exactly where it writes none.
fn numeral_within(low: u32, high: u32, word: &[u8]) -> Option<u32>
    ensures number { result ≡ numeral_within low high word.now }
    ensures low { IfSome result (λ n. low ≤ n) }
    ensures high { IfSome result (λ n. n ≤ high) }
{
    let number = read_numeral(word)?;
    if u64::from(low) <= number && number <= u64::from(high) {
        Some(number as u32)
    } else {
        None
    }
}

/// The row of a dart: its number, a colon, and behind a space each the numbers of the darts at its links 0 to `dim`; none
/// exactly where the line is not one. The one error is want of memory.
pub(crate) fn row_of(
    alloc: Global,
    dim: u32,
    made: u32,
    line: &[u8],
) -> Result<Option<ListRow>, AllocError>
    requires { dim ≤ 4 }
    ensures { IfOk result (λ row. row ≡ row_of dim made line.now) }
{
    let Some((dart, behind)) = cut(line, b':') else {
        return Ok(None);
    };
    let Some(dart) = dart_within(made, dart) else {
        return Ok(None);
    };
    match entries_behind(alloc, made, dim + 1, Words::of(behind))? {
        Some(links) => Ok(Some(ListRow { dart, links })),
        None => Ok(None),
    }
}

/// The dart up to `made` that a word names; none exactly where it names none.
fn dart_within(made: u32, word: &[u8]) -> Option<Dart>
    ensures { result ≡ numeral_within 1 made word.now }
{
    Dart::new(numeral_within(1, made, word)?)
}

/// The entries behind a colon, of which each stands behind a space.
fn entries_behind(
    alloc: Global,
    made: u32,
    count: u32,
    words: Words,
) -> Result<Option<Vec<u32>>, AllocError>
    ensures { IfOk result (λ links. option_map items_of links ≡ entries_behind made count (words_left words.entry)) }
{
    match words.take() {
        Some((first, others)) => {
            if first.is_empty() {
                return read_entries(alloc, made, count, others);
            }
            Ok(None)
        }
        None => Ok(None),
    }
}

/// So many entries up to `made`, which are all words that are left.
fn read_entries(
    alloc: Global,
    made: u32,
    count: u32,
    words: Words,
) -> Result<Option<Vec<u32>>, AllocError>
    ensures { IfOk result (λ links. option_map items_of links ≡ entries made count (words_left words.entry)) }
{
    let mut links = Vec::new(alloc);
    let mut left = words;
    for _ in 0..count {
        match take_entry(made, left) {
            Some((entry, after)) => {
                links.push(entry)?;
                left = after;
            }
            None => return Ok(None),
        }
    }
    match left.take() {
        Some(_) => Ok(None),
        None => Ok(Some(links)),
    }
}

/// The entry that the first word writes, and the words behind it.
fn take_entry(made: u32, words: Words) -> Option<(u32, Words)>
    ensures { option_map (λ x. (x.0, words_left x.1)) result ≡ first_entry made (words_left words.entry) }
{
    let (word, others) = words.take()?;
    let entry = numeral_within(0, made, word)?;
    Some((entry, others))
}

/// What the words behind `rule` tell: a dimension, and the names of a merge and a split. A name that is not in its table is
/// that of a named rule.
pub(crate) fn rule_of(words: Words) -> Option<ToldRule>
    ensures { result ≡ rule_of (words_left words.entry) }
{
    let (dim, words) = words.take()?;
    let (merge, words) = words.take()?;
    let (split, words) = words.take()?;
    if words.take().is_some() {
        return None;
    }
    let dim = read_numeral(dim)?;
    let merge = merge_listed(read_name(merge)?)?;
    let split = split_listed(read_name(split)?)?;
    Some(ToldRule {
        dim,
        rule: TableRule { merge, split },
    })
}

/// What the words behind `val` tell: a dimension, a dart, and the three numbers of a value.
pub(crate) fn value_of(words: Words) -> Option<ToldValue>
    ensures { result ≡ value_of (words_left words.entry) }
{
    let (dim, words) = words.take()?;
    let (dart, words) = words.take()?;
    let dim = read_numeral(dim)?;
    let dart = read_numeral(dart)?;
    let value = read_value(words)?;
    Some(ToldValue { dim, dart, value })
}

/// The value that the words write, if they are three.
fn read_value(words: Words) -> Option<Value>
    ensures { result ≡ value (words_left words.entry) }
{
    let (a, words) = words.take()?;
    let (b, words) = words.take()?;
    let (c, words) = words.take()?;
    if words.take().is_some() {
        return None;
    }
    let a = read_integer(a)?;
    let b = read_integer(b)?;
    let c = read_integer(c)?;
    Some(Value { a, b, c })
}
