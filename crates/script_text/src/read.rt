//! What a line tells.
ghost use Rattle.std.specs.Prelude.{◌≡◌, [], ◌∷◌, None, map, IfOk, IfErr, IfNone, IfSome};
ghost use Rattle.std.specs.String.{string_bytes};
ghost use Rattle.std.specs.Str.{bytes_eq};
ghost use Rattle.std.specs.Option.{option_map, option_and_then};
ghost use Rattle.machine_defs.specs.Script.{line_of, numerals, name, numbers_line, face_line, rule_line, set_line, value, only_name, found, alone, with_one, with_two, with_three};
ghost use Rattle.map_defs.specs.TextWords.{words_of};
ghost use Rattle.text_words.specs.Taking.{words_in};
ghost use Rattle.script_text.specs.Meanings.{line_meaning, Tell, IsSyntax};
ghost use Rattle.script_text.specs.Reading.{Reads, now_of, items_of};

use crate::front::take_first;
use crate::numbers::{Numbers, read_numbers};
use crate::{Change, Line, Question};
use map_kind::{PATH_MAX, Refusal, Refused, Value};
use std::alloc::Global;
use text_words::{
    are_text, read_integer, read_name, read_numeral, split_words, take_word, without_comment,
};

/// The line that these bytes tell; none exactly where they have no word. The bytes are one line without its line feed: a
/// number sign begins a comment, and the rest is cut into words at spaces, tabs and carriage returns. It is refused as
/// `Syntax` exactly where it has words that are outside the grammar of lines; the one other error is `NoMemory`.
pub fn read_line(alloc: Global, bytes: &[u8]) -> Result<Option<Line>, Refused>
    // there is no line exactly where there is no word
    ensures blank { IfOk result (λ line. IfNone line (words_of bytes.now ≡ [])) }
    // a line is the one that the words tell
    ensures told { IfOk result (λ line. IfSome line (Tell (words_of bytes.now))) }
    // a refusal is Syntax, where the words tell no line
    ensures refused { IfErr result (IsSyntax (words_of bytes.now)) }
{
    match take_first(bytes) {
        None => Ok(None),
        Some((first, others)) => Ok(Some(read_words(alloc, first, others)?)),
    }
}

/// The line that a first word and the words behind it tell.
fn read_words(alloc: Global, first: &[u8], others: &[u8]) -> Result<Line, Refused>
    ensures { Reads line_meaning (line_of (first.now ∷ words_of others.now)) result }
{
    match read_numbers_line(first, others) {
        Some(line) => Ok(line),
        None => read_worded_line(alloc, first, without_comment(others)),
    }
}

/// The line that a first word and the words behind it tell, where they tell none by numbers alone.
fn read_worded_line(alloc: Global, first: &[u8], others: &[u8]) -> Result<Line, Refused>
    requires { option_and_then (numbers_line first.now) (numerals (words_in others.now)) ≡ None }
    ensures { Reads line_meaning (line_of (first.now ∷ words_in others.now)) result }
{
    if !are_text(others) {
        return Err(Refused::Line(Refusal::Syntax));
    }
    if is(first, b"face") {
        read_face(alloc, others)
    } else if is(first, b"rule") {
        read_rule(alloc, others)
    } else if is(first, b"set") {
        Ok(read_set(others).ok_or(Refusal::Syntax)?)
    } else if is(first, b"mark") {
        Ok(Line::Change(Change::Mark(read_only_name(alloc, others)?)))
    } else if is(first, b"undo") {
        Ok(Line::Change(Change::Undo(read_only_name(alloc, others)?)))
    } else if is(first, b"redo") {
        Ok(Line::Change(Change::Redo(read_only_name(alloc, others)?)))
    } else if is(first, b"log") {
        Ok(Line::Question(Question::Log(read_only_name(alloc, others)?)))
    } else {
        Err(Refused::Line(Refusal::Syntax))
    }
}

/// The line of a face, along 1 to `PATH_MAX` darts.
fn read_face(alloc: Global, text: &[u8]) -> Result<Line, Refused>
    ensures { Reads line_meaning (face_line (words_in text.now)) result }
{
    let words = split_words(alloc, text)?;
    if words.is_empty() || words.len() > PATH_MAX {
        return Err(Refused::Line(Refusal::Syntax));
    }
    let darts = read_numerals(alloc, words.as_slice())?;
    Ok(Line::Change(Change::Face(darts)))
}

fn read_rule(alloc: Global, text: &[u8]) -> Result<Line, Refused>
    ensures { Reads line_meaning (rule_line (words_in text.now)) result }
{
    let (dim, text) = take_word(text).ok_or(Refusal::Syntax)?;
    let (merge, text) = take_word(text).ok_or(Refusal::Syntax)?;
    let (split, text) = take_word(text).ok_or(Refusal::Syntax)?;
    if take_word(text).is_some() {
        return Err(Refused::Line(Refusal::Syntax));
    }
    let dim = read_numeral(dim).ok_or(Refusal::Syntax)?;
    let merge = own_name(alloc, merge)?;
    let split = own_name(alloc, split)?;
    Ok(Line::Change(Change::Rule(dim, merge, split)))
}

fn read_set(text: &[u8]) -> Option<Line>
    ensures { option_map line_meaning result ≡ set_line (words_in text.now) }
{
    let (dim, text) = take_word(text)?;
    let (dart, text) = take_word(text)?;
    let dim = read_numeral(dim)?;
    let dart = read_numeral(dart)?;
    let value = read_value(text)?;
    Some(Line::Change(Change::Set(dim, dart, value)))
}

/// The value that the words of a text write, if they are three.
fn read_value(text: &[u8]) -> Option<Value>
    ensures { result ≡ value (words_in text.now) }
{
    let (a, text) = take_word(text)?;
    let (b, text) = take_word(text)?;
    let (c, text) = take_word(text)?;
    if take_word(text).is_some() {
        return None;
    }
    let a = read_integer(a)?;
    let b = read_integer(b)?;
    let c = read_integer(c)?;
    Some(Value { a, b, c })
}

/// The name that a word writes.
fn own_name(alloc: Global, word: &[u8]) -> Result<String, Refused>
    ensures { Reads string_bytes (name word.now) result }
{
    let name = read_name(word).ok_or(Refusal::Syntax)?;
    Ok(String::from_str(alloc, name)?)
}

/// The name that the words of a text write, if they are one word.
fn read_only_name(alloc: Global, text: &[u8]) -> Result<String, Refused>
    ensures { Reads string_bytes (only_name (words_in text.now)) result }
{
    let (word, rest) = take_word(text).ok_or(Refusal::Syntax)?;
    match take_word(rest) {
        None => own_name(alloc, word),
        Some(_) => Err(Refused::Line(Refusal::Syntax)),
    }
}

/// The numbers that these words write, one each.
fn read_numerals(alloc: Global, words: &[&[u8]]) -> Result<Vec<u64>, Refused>
    ensures { Reads items_of (numerals (map now_of words.now)) result }
{
    let mut numbers = Vec::new(alloc);
    for word in words {
        numbers.push(read_numeral(word).ok_or(Refusal::Syntax)?)?;
    }
    Ok(numbers)
}

/// The line of a first word and the numbers that the words of a text write: at most three.
fn read_numbers_line(first: &[u8], text: &[u8]) -> Option<Line>
    ensures { option_map line_meaning result ≡ option_and_then (numbers_line first.now) (numerals (words_of text.now)) }
{
    match read_numbers(text) {
        Some(Numbers::Zero) => line_alone(first),
        Some(Numbers::One(a)) => line_with_one(first, a),
        Some(Numbers::Two(a, b)) => line_with_two(first, a, b),
        Some(Numbers::Three(a, b, c)) => line_with_three(first, a, b, c),
        None => None,
    }
}

/// Whether a word is this name. They are compared byte by byte: a name is short, and known where this is called.
fn is(word: &[u8], name: &[u8]) -> bool
    ensures { result ≡ bytes_eq word.now name.now }
{
    if word.len() != name.len() {
        return false;
    }
    for (place, byte) in name.iter().enumerate() {
        if word[place] != *byte {
            return false;
        }
    }
    true
}

fn line_alone(first: &[u8]) -> Option<Line>
    ensures { option_map line_meaning result ≡ found first.now alone }
{
    if is(first, b"dart") {
        Some(Line::Change(Change::Dart))
    } else if is(first, b"dual") {
        Some(Line::Change(Change::Dual))
    } else if is(first, b"count") {
        Some(Line::Question(Question::Count))
    } else if is(first, b"show") {
        Some(Line::Question(Question::Show))
    } else if is(first, b"off") {
        Some(Line::Question(Question::Off))
    } else {
        None
    }
}

fn line_with_one(first: &[u8], a: u64) -> Option<Line>
    ensures { option_map line_meaning result ≡ option_map (λ line. line a) (found first.now with_one) }
{
    if is(first, b"polygon") {
        Some(Line::Change(Change::Polygon(a)))
    } else if is(first, b"del") {
        Some(Line::Change(Change::Del(a)))
    } else if is(first, b"vertex") {
        Some(Line::Change(Change::Vertex(a)))
    } else if is(first, b"close") {
        Some(Line::Change(Change::Close(a)))
    } else if is(first, b"dangle") {
        Some(Line::Change(Change::Dangle(a)))
    } else if is(first, b"center") {
        Some(Line::Change(Change::Center(a)))
    } else {
        None
    }
}

fn line_with_two(first: &[u8], a: u64, b: u64) -> Option<Line>
    ensures { option_map line_meaning result ≡ option_map (λ line. line a b) (found first.now with_two) }
{
    if is(first, b"unsew") {
        Some(Line::Change(Change::Unsew(a, b)))
    } else if is(first, b"remove") {
        Some(Line::Change(Change::Remove(a, b)))
    } else if is(first, b"contract") {
        Some(Line::Change(Change::Contract(a, b)))
    } else if is(first, b"clear") {
        Some(Line::Change(Change::Clear(a, b)))
    } else if is(first, b"cell") {
        Some(Line::Question(Question::Cell(a, b)))
    } else if is(first, b"free") {
        Some(Line::Question(Question::Free(a, b)))
    } else if is(first, b"value") {
        Some(Line::Question(Question::Value(a, b)))
    } else if is(first, b"removable") {
        Some(Line::Question(Question::Removable(a, b)))
    } else if is(first, b"contractible") {
        Some(Line::Question(Question::Contractible(a, b)))
    } else if is(first, b"edge") {
        Some(Line::Change(Change::Edge(a, b)))
    } else {
        None
    }
}

fn line_with_three(first: &[u8], a: u64, b: u64, c: u64) -> Option<Line>
    ensures { option_map line_meaning result ≡ option_map (λ line. line a b c) (found first.now with_three) }
{
    if is(first, b"sew") {
        Some(Line::Change(Change::Sew(a, b, c)))
    } else if is(first, b"sewable") {
        Some(Line::Question(Question::Sewable(a, b, c)))
    } else if is(first, b"same") {
        Some(Line::Question(Question::Same(a, b, c)))
    } else {
        None
    }
}
