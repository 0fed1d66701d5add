//! What the lines of a text tell, one after the other, up to the first fault of form or order.
ghost use Rattle.std.specs.Prelude.{◌≡◌, ◌+◌, ◌-◌, ◌≤◌, ◌<◌, ◌^◌, [], drop, length, All, IfOk, option_copied};
ghost use Rattle.map_defs.specs.Rows.{made_max};
ghost use Rattle.machine_defs.specs.ListingForm.{taken, row_taken, rule_taken, value_taken, mark_taken, rows_read, rules_read, values_read, marks_read, header_read, ended, rises, is_row_below, is_rule_below, is_value_below, told_left};
ghost use Rattle.list_text.specs.Meanings.{Gives};
ghost use Rattle.list_text.specs.Letters.{IsLetter};
ghost use Rattle.row_laws.specs.Rows.{IsMadeRow, AreRows};
ghost use Rattle.list_text.specs.Views.{cursor_view, header_view, told_view};

use crate::cursor::Cursor;
use crate::form::{Header, ToldRule, ToldValue, header_of, row_of, rule_of, value_of};
use crate::lines::{bad, next_line};
use crate::names::Names;
use crate::words::Words;
use crate::{ListFault, ListRow, ListWhat, MarkName};
use std::alloc::Global;
use text_words::read_name;

/// How the line of a rule begins.
const RULE: &[u8] = b"rule ";

/// How the line of a value begins.
const VALUE: &[u8] = b"val ";

/// How the line of a mark begins.
const MARK: &[u8] = b"mark ";

/// What the lines of a text tell. Its laws and its values are not yet looked at.
#[derive(Drop)]
pub(crate) struct Told {
    pub header: Header,
    pub rows: Vec<ListRow>,
    pub rules: Vec<ToldRule>,
    pub values: Vec<ToldValue>,
    pub marks: Vec<MarkName>,
}

/// What the lines that are left tell, which are those of a whole listing.
#[tactic(auto, unfolding(machine_defs::specs::ListingForm::told_left))]
pub(crate) fn read_told(alloc: Global, cursor: Cursor) -> Result<Told, ListFault>
    ensures told { Gives told_view result (told_left (cursor_view cursor.entry)) }
    ensures letter { IfOk result (λ told. IsLetter told.header.letter) }
    ensures rows { IfOk result (λ told. AreRows told.header.dim told.rows.items) }
    ensures low { IfOk result (λ told. 2 ≤ told.header.dim) }
    ensures dim { IfOk result (λ told. told.header.dim ≤ 4) }
    ensures made { IfOk result (λ told. told.header.made ≤ made_max) }
    ensures within { IfOk result (λ told. All (IsMadeRow told.header.made) told.rows.items) }
    // There are fewer lines than 32 bits count.
    ensures few { IfOk result (λ told. length told.rows.items + length told.rules.items + length told.values.items < 2 ^ 32 - 2) }
{
    let (header, left) = read_header(cursor)?;
    let (rows, left) = read_rows(alloc, header, left)?;
    let (rules, left) = read_rules(alloc, header.version, left)?;
    let (values, left) = read_values(alloc, left)?;
    let (marks, left) = read_marks(alloc, header.version, left)?;
    read_end(left)?;
    Ok(Told {
        header,
        rows,
        rules,
        values,
        marks,
    })
}

#[tactic(auto, unfolding(machine_defs::specs::ListingForm::header_read))]
fn read_header(cursor: Cursor) -> Result<(Header, Cursor), ListFault>
    ensures header { Gives (λ x. (header_view x.0, cursor_view x.1)) result (header_read (cursor_view cursor.entry)) }
    ensures letter { IfOk result (λ x. IsLetter x.0.letter) }
    ensures low { IfOk result (λ x. 2 ≤ x.0.dim) }
    ensures dim { IfOk result (λ x. x.0.dim ≤ 4) }
    ensures made { IfOk result (λ x. x.0.made ≤ made_max) }
{
    let (text, left) = next_line(cursor)?;
    match header_of(Words::of(text)) {
        Some(header) => Ok((header, left)),
        None => Err(bad(left.line, ListWhat::Form)),
    }
}

fn read_rows<'a>(
    alloc: Global,
    header: Header,
    cursor: Cursor<'a>,
) -> Result<(Vec<ListRow>, Cursor<'a>), ListFault>
    requires { header.dim ≤ 4 }
    ensures read { Gives (λ x. (x.0.items, cursor_view x.1)) result
        (rows_read header.dim header.made header.live [] (cursor_view cursor.entry)) }
    ensures rows { IfOk result (λ x. AreRows header.dim x.0.items) }
    ensures within { IfOk result (λ x. All (IsMadeRow header.made) x.0.items) }
    ensures counted { IfOk result (λ x. x.1.line ≡ cursor.entry.line + length x.0.items) }
{
    let mut rows = Vec::new(alloc);
    let mut left = cursor;
    for _ in 0..header.live {
        left = push_row(&mut rows, header.dim, header.made, left)?;
    }
    Ok((rows, left))
}

/// Reads the row of the next line, puts it behind the others, and answers what is left.
#[tactic(auto, unfolding(machine_defs::specs::ListingForm::taken))]
fn push_row<'a>(
    rows: &mut Vec<ListRow>,
    dim: u32,
    made: u32,
    cursor: Cursor<'a>,
) -> Result<Cursor<'a>, ListFault>
    requires { dim ≤ 4 }
    ensures { Gives (λ left. (rows.new.items, cursor_view left)) result
        (taken (row_taken dim made) 0 rows.old.items (cursor_view cursor.entry)) }
{
    let (text, left) = next_line(cursor)?;
    let Some(row) = row_of(*rows.allocator(), dim, made, text)? else {
        return Err(bad(left.line, ListWhat::Form));
    };
    if !is_row_behind(rows.last(), &row) {
        return Err(bad(left.line, ListWhat::Order));
    }
    rows.push(row)?;
    Ok(left)
}

/// Whether a row's dart is above that of the last row before, if there is one.
fn is_row_behind(last: Option<&ListRow>, row: &ListRow) -> bool
    ensures { result ≡ rises is_row_below (option_copied last.entry) row.now }
{
    match last {
        Some(last) => last.dart < row.dart,
        None => true,
    }
}

/// The rules of the next lines. In version 1 there are none.
fn read_rules(
    alloc: Global,
    version: u32,
    cursor: Cursor,
) -> Result<(Vec<ToldRule>, Cursor), ListFault>
    ensures read { Gives (λ x. (x.0.items, cursor_view x.1)) result (rules_read version (cursor_view cursor.entry)) }
    ensures counted { IfOk result (λ x. x.1.line ≡ cursor.entry.line + length x.0.items) }
{
    let mut rules = Vec::new(alloc);
    let mut left = cursor;
    if version == 1 {
        return Ok((rules, left));
    }
    while left.rest.starts_with(RULE) {
        left = push_rule(&mut rules, left)?;
    }
    Ok((rules, left))
}

/// Reads the rule of the next line, puts it behind the others, and answers what is left.
#[tactic(auto, unfolding(machine_defs::specs::ListingForm::taken))]
fn push_rule<'a>(rules: &mut Vec<ToldRule>, cursor: Cursor<'a>) -> Result<Cursor<'a>, ListFault>
    ensures taken { Gives (λ left. (rules.new.items, cursor_view left)) result
        (taken rule_taken 5 rules.old.items (cursor_view cursor.entry)) }
    ensures shorter { IfOk result (λ left. length left.rest.now < length cursor.entry.rest.now) }
{
    let (text, left) = next_line(cursor)?;
    let Some(rule) = rule_of(Words::of(behind(text, RULE.len()))) else {
        return Err(bad(left.line, ListWhat::Form));
    };
    if !is_rule_behind(rules.last(), rule) {
        return Err(bad(left.line, ListWhat::Order));
    }
    rules.push(rule)?;
    Ok(left)
}

/// Whether a rule's dimension is above that of the last rule before, if there is one.
fn is_rule_behind(last: Option<&ToldRule>, rule: ToldRule) -> bool
    ensures { result ≡ rises is_rule_below (option_copied last.entry) rule }
{
    match last {
        Some(last) => last.dim < rule.dim,
        None => true,
    }
}

/// The values of the next lines.
fn read_values(alloc: Global, cursor: Cursor) -> Result<(Vec<ToldValue>, Cursor), ListFault>
    ensures read { Gives (λ x. (x.0.items, cursor_view x.1)) result (values_read (cursor_view cursor.entry)) }
    ensures counted { IfOk result (λ x. x.1.line ≡ cursor.entry.line + length x.0.items) }
{
    let mut values = Vec::new(alloc);
    let mut left = cursor;
    while left.rest.starts_with(VALUE) {
        left = push_value(&mut values, left)?;
    }
    Ok((values, left))
}

/// Reads the value of the next line, puts it behind the others, and answers what is left.
#[tactic(auto, unfolding(machine_defs::specs::ListingForm::taken))]
fn push_value<'a>(values: &mut Vec<ToldValue>, cursor: Cursor<'a>) -> Result<Cursor<'a>, ListFault>
    ensures taken { Gives (λ left. (values.new.items, cursor_view left)) result
        (taken value_taken 4 values.old.items (cursor_view cursor.entry)) }
    ensures shorter { IfOk result (λ left. length left.rest.now < length cursor.entry.rest.now) }
{
    let (text, left) = next_line(cursor)?;
    let Some(value) = value_of(Words::of(behind(text, VALUE.len()))) else {
        return Err(bad(left.line, ListWhat::Form));
    };
    if !is_value_behind(values.last(), value) {
        return Err(bad(left.line, ListWhat::Order));
    }
    values.push(value)?;
    Ok(left)
}

/// Whether a value's dimension and dart are above those of the last value before, if there is one.
fn is_value_behind(last: Option<&ToldValue>, value: ToldValue) -> bool
    ensures { result ≡ rises is_value_below (option_copied last.entry) value }
{
    match last {
        Some(last) => { last.dim < value.dim || (last.dim == value.dim && last.dart < value.dart) }
        None => true,
    }
}

/// The marks of the next lines. In version 1 there are none.
fn read_marks(
    alloc: Global,
    version: u32,
    cursor: Cursor,
) -> Result<(Vec<MarkName>, Cursor), ListFault>
    ensures { Gives (λ x. (x.0.items, cursor_view x.1)) result (marks_read version (cursor_view cursor.entry)) }
{
    let mut marks = Names::new(alloc);
    let mut left = cursor;
    if version == 1 {
        return Ok((marks.into_names(), left));
    }
    while left.rest.starts_with(MARK) {
        left = push_mark(&mut marks, left)?;
    }
    Ok((marks.into_names(), left))
}

/// Reads the mark of the next line, puts it behind the others, and answers what is left.
#[tactic(auto, unfolding(machine_defs::specs::ListingForm::taken))]
fn push_mark<'a>(marks: &mut Names<'a>, cursor: Cursor<'a>) -> Result<Cursor<'a>, ListFault>
    ensures taken { Gives (λ left. (marks.new, cursor_view left)) result
        (taken mark_taken 5 marks.old (cursor_view cursor.entry)) }
    ensures shorter { IfOk result (λ left. length left.rest.now < length cursor.entry.rest.now) }
{
    let (text, left) = next_line(cursor)?;
    let Some(name) = read_name(behind(text, MARK.len())) else {
        return Err(bad(left.line, ListWhat::Form));
    };
    if !marks.put(name)? {
        return Err(bad(left.line, ListWhat::Order));
    }
    Ok(left)
}

/// What stands behind so many bytes.
fn behind(text: &[u8], count: usize) -> &[u8]
    ensures { result.now ≡ drop count text.now }
{
    &text[count.min(text.len())..]
}

/// Refuses what is left, unless it is the line `end`.
#[tactic(auto, unfolding(machine_defs::specs::ListingForm::ended))]
fn read_end(cursor: Cursor) -> Result<(), ListFault>
    ensures { Gives (λ u. u) result (ended (cursor_view cursor.entry)) }
{
    let (text, left) = next_line(cursor)?;
    if text != b"end".as_slice() {
        return Err(bad(left.line, ListWhat::Form));
    }
    if !left.rest.is_empty() {
        return Err(bad(left.line + 1, ListWhat::Form));
    }
    Ok(())
}
