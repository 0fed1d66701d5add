//! The lines of a log.
ghost use Rattle.std.specs.Prelude.{◌++◌, ◌∷◌, Some, codes};
ghost use Rattle.std.specs.Fmt.{signed_decimal};
ghost use Rattle.machine_defs.specs.TextLines.{ended, spaced};
ghost use Rattle.machine_defs.specs.LogText.{logged_value, logged_rule, born_text, dead_text, link_change_text, value_change_text, rule_change_text};
ghost use Rattle.text_lines.specs.Writing.{Appends};
ghost use Rattle.script_text.specs.LogLines.{line_text, line-ends};

use attr_rules::TableRule;
use link_rows::Change;
use map_kind::{Dart, Value};
use std::alloc::AllocError;
use text_lines::{TextLine, append_number, append_spaced};
use undo_journal::{RuleChange, ValueChange};

/// A line of a log.
#[derive(Clone, Copy, Debug)]
pub enum LogLine<'a> {
    /// The first line: `log`, and how many steps the log has.
    Log { steps: usize },
    /// The first line of a step: `step`, and its number.
    Step { number: usize },
    /// The darts that a step made: `born`, the first of them, and how many; no line where none was made.
    Born { first: u32, births: u32 },
    /// The darts that a step ended: `dead`, and the darts in their order; no line where none ended.
    Dead(&'a [Dart]),
    /// A changed link: `link`, the dart, the link, and the darts there before and after, 0 for a free link.
    Link(&'a Change),
    /// A changed value: `val`, the dimension, the dart, and its values before and after, a hyphen for none.
    Value(&'a ValueChange),
    /// A changed rule: `rule`, the dimension, and its rules before and after, a hyphen for none.
    Rule(&'a RuleChange),
    /// The last line: `end`.
    End,
}

impl<'a> TextLine for LogLine<'a> {
    ghost line = { line_text };

    fn append_to(&self, text: &mut Vec<u8>) -> Result<(), AllocError> {
        match self {
            LogLine::Log { steps } => append_word_and_number(text, b"log", *steps),
            LogLine::Step { number } => append_word_and_number(text, b"step", *number),
            LogLine::Born { first, births } => append_born(text, *first, *births),
            LogLine::Dead(darts) => append_dead(text, darts),
            LogLine::Link(change) => append_link_change(text, **change),
            LogLine::Value(change) => append_value_change(text, **change),
            LogLine::Rule(change) => append_rule_change(text, **change),
            LogLine::End => text.extend_from_slice(b"end\n"),
        }
    }

    ghost ends = { line-ends };
}

/// A word, a space and a number.
fn append_word_and_number(text: &mut Vec<u8>, word: &[u8], number: usize) -> Result<(), AllocError>
    ensures { Appends text.old.items text.new.items (ended (word.now ++ spaced number)) result }
{
    text.extend_from_slice(word)?;
    append_spaced(text, number)?;
    text.push(b'\n')?;
    Ok(())
}

fn append_born(text: &mut Vec<u8>, first: u32, births: u32) -> Result<(), AllocError>
    ensures { Appends text.old.items text.new.items (born_text first births) result }
{
    if births == 0 {
        return Ok(());
    }
    text.extend_from_slice(b"born")?;
    append_spaced(text, first)?;
    append_spaced(text, births)?;
    text.push(b'\n')?;
    Ok(())
}

fn append_dead(text: &mut Vec<u8>, darts: &[Dart]) -> Result<(), AllocError>
    ensures { Appends text.old.items text.new.items (dead_text darts.now) result }
{
    if darts.is_empty() {
        return Ok(());
    }
    text.extend_from_slice(b"dead")?;
    for dart in darts {
        append_spaced(text, dart.number())?;
    }
    text.push(b'\n')?;
    Ok(())
}

fn append_link_change(text: &mut Vec<u8>, change: Change) -> Result<(), AllocError>
    ensures { Appends text.old.items text.new.items (link_change_text change) result }
{
    let Change {
        dart,
        link,
        old,
        new,
    } = change;
    text.extend_from_slice(b"link")?;
    append_spaced(text, dart.number())?;
    append_spaced(text, link)?;
    append_spaced(text, old)?;
    append_spaced(text, new)?;
    text.push(b'\n')?;
    Ok(())
}

fn append_value_change(text: &mut Vec<u8>, change: ValueChange) -> Result<(), AllocError>
    ensures { Appends text.old.items text.new.items (value_change_text change) result }
{
    let ValueChange {
        dim,
        dart,
        old,
        new,
    } = change;
    text.extend_from_slice(b"val")?;
    append_spaced(text, dim)?;
    append_spaced(text, dart.number())?;
    append_logged_value(text, old)?;
    append_logged_value(text, new)?;
    text.push(b'\n')?;
    Ok(())
}

fn append_rule_change(text: &mut Vec<u8>, change: RuleChange) -> Result<(), AllocError>
    ensures { Appends text.old.items text.new.items (rule_change_text change) result }
{
    let RuleChange { dim, old, new } = change;
    text.extend_from_slice(b"rule")?;
    append_spaced(text, dim)?;
    append_logged_rule(text, old)?;
    append_logged_rule(text, new)?;
    text.push(b'\n')?;
    Ok(())
}

/// A space, and a value's three numbers between commas, or a hyphen for none.
fn append_logged_value(text: &mut Vec<u8>, value: Option<Value>) -> Result<(), AllocError>
    ensures { Appends text.old.items text.new.items (32 ∷ logged_value value) result }
{
    match value {
        Some(Value { a, b, c }) => append_triple(text, a, b, c),
        None => append_none(text),
    }
}

/// A space, and three numbers between commas.
fn append_triple(text: &mut Vec<u8>, a: i64, b: i64, c: i64) -> Result<(), AllocError>
    ensures { Appends text.old.items text.new.items
        (32 ∷ logged_value (Some (record { a = a; b = b; c = c }))) result }
{
    append_spaced(text, a)?;
    append_further(text, b)?;
    append_further(text, c)?;
    Ok(())
}

/// A comma, and a number.
fn append_further(text: &mut Vec<u8>, number: i64) -> Result<(), AllocError>
    ensures { Appends text.old.items text.new.items (44 ∷ signed_decimal number) result }
{
    text.push(b',')?;
    append_number(text, number)?;
    Ok(())
}

/// A space, and a rule's two names with a slash between, or a hyphen for none.
fn append_logged_rule(text: &mut Vec<u8>, rule: Option<TableRule>) -> Result<(), AllocError>
    ensures { Appends text.old.items text.new.items (32 ∷ logged_rule rule) result }
{
    match rule {
        Some(rule) => append_rule_names(text, rule),
        None => append_none(text),
    }
}

/// A space, and a rule's two names with a slash between.
fn append_rule_names(text: &mut Vec<u8>, rule: TableRule) -> Result<(), AllocError>
    ensures { Appends text.old.items text.new.items (32 ∷ logged_rule (Some rule)) result }
{
    text.push(b' ')?;
    text.extend_from_slice(rule.merge.name().as_bytes())?;
    text.push(b'/')?;
    text.extend_from_slice(rule.split.name().as_bytes())?;
    Ok(())
}

/// A space, and the hyphen that stands for no value and for no rule.
fn append_none(text: &mut Vec<u8>) -> Result<(), AllocError>
    ensures { Appends text.old.items text.new.items (codes " -") result }
{
    text.extend_from_slice(b" -")
}
