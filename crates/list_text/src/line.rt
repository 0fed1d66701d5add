//! The lines of a listing.
ghost use Rattle.std.specs.Prelude.{◌∷◌};
ghost use Rattle.machine_defs.specs.Text.{header_line, row_text, rule_text, value_text, mark_text};
ghost use Rattle.text_lines.specs.Writing.{Appends};
ghost use Rattle.list_text.specs.Lines.{line_text, line-ends};

use crate::{ListRow, ListRule, ListValue, MarkName};
use attr_rules::TableRule;
use map_kind::{Dart, Place};
use std::alloc::AllocError;
use text_lines::{TextLine, append_number, append_spaced};

/// A line of a listing.
#[derive(Clone, Copy, Debug)]
pub enum ListLine<'a> {
    /// The first line: `cellmap`, the format's version 2, the letter of the kind, the dimension, how many darts were made and
    /// how many are live.
    Header {
        letter: u8,
        dim: u32,
        made: u32,
        live: usize,
    },
    /// The row of a dart: its number, a colon, and for each link from 0 on the number of the dart to which it leads, 0 for a
    /// free link.
    Row(&'a ListRow),
    /// A dimension that has a rule: `rule`, the dimension, and the names of the rule's merge and of its split.
    Rule(&'a ListRule),
    /// A cell that has a value: `val`, the cell's dimension, its least dart and the three numbers of its value.
    Value(&'a ListValue),
    /// A mark: `mark` and its name.
    Mark(&'a MarkName),
    /// The last line: `end`.
    End,
}

impl<'a> TextLine for ListLine<'a> {
    ghost line = { line_text };

    fn append_to(&self, text: &mut Vec<u8>) -> Result<(), AllocError> {
        match self {
            ListLine::Header {
                letter,
                dim,
                made,
                live,
            } => append_header(text, *letter, *dim, *made, *live),
            ListLine::Row(row) => append_row(text, row.dart, row.links.as_slice()),
            ListLine::Rule(rule) => append_rule(text, rule.dim, rule.rule),
            ListLine::Value(value) => append_value(text, value.dim, value.place),
            ListLine::Mark(name) => append_mark(text, name.as_str()),
            ListLine::End => text.extend_from_slice(b"end\n"),
        }
    }

    ghost ends = { line-ends };
}

fn append_header(
    text: &mut Vec<u8>,
    letter: u8,
    dim: u32,
    made: u32,
    live: usize,
) -> Result<(), AllocError>
    ensures { Appends text.old.items text.new.items (header_line letter dim made live) result }
{
    text.extend_from_slice(b"cellmap 2 ")?;
    text.push(letter)?;
    append_spaced(text, dim)?;
    append_spaced(text, made)?;
    append_spaced(text, live)?;
    text.push(b'\n')?;
    Ok(())
}

fn append_row(text: &mut Vec<u8>, dart: Dart, links: &[u32]) -> Result<(), AllocError>
    ensures { Appends text.old.items text.new.items
        (row_text (record { dart = dart; links = links.now })) result }
{
    append_number(text, dart.number())?;
    text.push(b':')?;
    for link in links {
        append_spaced(text, *link)?;
    }
    text.push(b'\n')?;
    Ok(())
}

fn append_rule(text: &mut Vec<u8>, dim: u32, rule: TableRule) -> Result<(), AllocError>
    ensures { Appends text.old.items text.new.items (rule_text (record { dim = dim; rule = rule })) result }
{
    text.extend_from_slice(b"rule")?;
    append_spaced(text, dim)?;
    append_name(text, rule.merge.name())?;
    append_name(text, rule.split.name())?;
    text.push(b'\n')?;
    Ok(())
}

/// Appends a space and a name.
fn append_name(text: &mut Vec<u8>, name: &str) -> Result<(), AllocError>
    ensures { Appends text.old.items text.new.items (32 ∷ name.now) result }
{
    text.push(b' ')?;
    text.extend_from_slice(name.as_bytes())
}

fn append_mark(text: &mut Vec<u8>, name: &str) -> Result<(), AllocError>
    ensures { Appends text.old.items text.new.items (mark_text name.now) result }
{
    text.extend_from_slice(b"mark")?;
    append_name(text, name)?;
    text.push(b'\n')?;
    Ok(())
}

fn append_value(text: &mut Vec<u8>, dim: u32, place: Place) -> Result<(), AllocError>
    ensures { Appends text.old.items text.new.items
        (value_text (record { dim = dim; dart = place.dart; value = place.value })) result }
{
    let Place { dart, value } = place;
    text.extend_from_slice(b"val")?;
    append_spaced(text, dim)?;
    append_spaced(text, dart.number())?;
    append_spaced(text, value.a)?;
    append_spaced(text, value.b)?;
    append_spaced(text, value.c)?;
    text.push(b'\n')?;
    Ok(())
}
