//! The reply to a line, and its text.
ghost use Rattle.std.specs.Prelude.{◌≡◌, IfOk, IsErrOf, Some, codes};
ghost use Rattle.machine_defs.specs.Text.{is_refused, reply_text, done_text, truth_text, numbers_text, cell_value_text, refusal_text};
ghost use Rattle.map_kind.specs.Refusals.{meaning};
ghost use Rattle.map_io.specs.Cause.{HasCause};
ghost use Rattle.text_lines.specs.Writing.{Appends, WritesText};
ghost use Rattle.script_text.specs.Meanings.{reply_meaning};
ghost use Rattle.script_text.specs.ReplyEnds.{reply-ends};

use crate::done_line::{LONGEST, write_done};
use map_io::{PutFault, Sink};
use map_kind::{Dart, Done, Refusal, Value};
use std::alloc::{AllocError, Global};
use text_lines::{TextLine, append_spaced, put_line_over};

/// The reply to a line, of one line of text.
#[derive(Debug, PartialEq, Eq, Drop)]
pub enum Reply {
    /// A changing line was obeyed. Where it made no dart, no numbers are written.
    Done(Done),
    /// The answer to a question of yes or no.
    Truth(bool),
    /// The darts of a cell, as they are written; a map tells them in ascending order.
    Cell(Vec<Dart>),
    /// The counts of a map, as they are written; a map tells its live darts, its cells of dimension 0 and up, and its
    /// components.
    Count(Vec<u64>),
    /// The value of a cell, if it has one.
    Value(Option<Value>),
    /// The line was refused, and changed nothing.
    No(Refusal),
}

impl Reply {
    /// Whether the line was refused.
    pub fn is_refused(&self) -> bool
        ensures { result ≡ is_refused (reply_meaning self.now) }
    {
        matches!(self, Reply::No(_))
    }

    /// Puts the reply to a sink in one piece. Any but a `Done` and a `Truth` is first written over what stands in `text`.
    pub fn put_over<S: Sink>(&self, text: &mut Vec<u8>, out: &mut S) -> Result<(), PutFault>
        ensures written { WritesText (S.written out.old) (S.written out.new) result (reply_text (reply_meaning self.now)) }
        ensures cause { HasCause (S.faults out.old) (S.faults out.new) (IsErrOf result PutFault.Failed) }
    {
        match self {
            Reply::Done(Done { count: 0, .. }) => out.put(b"ok\n"),
            Reply::Done(done) => put_done(out, *done),
            Reply::Truth(answer) => out.put(truth(*answer)),
            _ => put_line_over(text, out, self),
        }
    }
}

impl TextLine for Reply {
    ghost line = { λ reply. reply_text (reply_meaning reply) };

    fn append_to(&self, text: &mut Vec<u8>) -> Result<(), AllocError> {
        match self {
            Reply::Done(done) => append_done(text, *done),
            Reply::Truth(answer) => text.extend_from_slice(truth(*answer)),
            Reply::Cell(darts) => append_cell(text, darts.as_slice()),
            Reply::Count(counts) => append_count(text, counts.as_slice()),
            Reply::Value(value) => append_cell_value(text, *value),
            Reply::No(refusal) => append_refusal(text, *refusal),
        }
    }

    ghost ends = { reply-ends };
}

/// The text of a reply, with the line feed at its end: `ok`, behind it the first new dart and their number where darts were
/// made; `true` or `false`; `cell` or `count`, and its numbers; `value`, and its three numbers, or
/// `none`; or `no`, the refusal's number and its name. The one error is
/// want of memory.
pub fn reply_text(alloc: Global, reply: &Reply) -> Result<Vec<u8>, AllocError>
    ensures { IfOk result (λ written. written.items ≡ reply_text (reply_meaning reply.now)) }
{
    let mut text = Vec::new(alloc);
    reply.append_to(&mut text)?;
    Ok(text)
}

/// Puts the reply to a changing line to a sink in one piece. It stays a call of its own, so that a reply of `ok` alone, which is
/// put without it, makes no room for numbers.
#[inline(never)]
fn put_done<S: Sink>(out: &mut S, done: Done) -> Result<(), PutFault>
    ensures written { WritesText (S.written out.old) (S.written out.new) result (done_text done.first done.count) }
    ensures cause { HasCause (S.faults out.old) (S.faults out.new) (IsErrOf result PutFault.Failed) }
{
    let mut line = [0; LONGEST];
    let start = write_done(&mut line, done);
    out.put(&line[start..])
}

fn append_done(text: &mut Vec<u8>, done: Done) -> Result<(), AllocError>
    ensures { Appends text.old.items text.new.items (done_text done.first done.count) result }
{
    let mut line = [0; LONGEST];
    let start = write_done(&mut line, done);
    text.extend_from_slice(&line[start..])
}

/// The reply to a question of yes or no.
fn truth(answer: bool) -> &'static [u8]
    ensures { result.now ≡ truth_text answer }
{
    if answer { b"true\n" } else { b"false\n" }
}

fn append_cell(text: &mut Vec<u8>, darts: &[Dart]) -> Result<(), AllocError>
    ensures { Appends text.old.items text.new.items (numbers_text (codes "cell") darts.now) result }
{
    text.extend_from_slice(b"cell")?;
    for dart in darts {
        append_spaced(text, dart.number())?;
    }
    text.push(b'\n')?;
    Ok(())
}

fn append_count(text: &mut Vec<u8>, counts: &[u64]) -> Result<(), AllocError>
    ensures { Appends text.old.items text.new.items (numbers_text (codes "count") counts.now) result }
{
    text.extend_from_slice(b"count")?;
    for count in counts {
        append_spaced(text, *count)?;
    }
    text.push(b'\n')?;
    Ok(())
}

/// The reply to a question for a value: `value`, and its three numbers, or `none`.
fn append_cell_value(text: &mut Vec<u8>, value: Option<Value>) -> Result<(), AllocError>
    ensures { Appends text.old.items text.new.items (cell_value_text value) result }
{
    match value {
        Some(Value { a, b, c }) => append_numbers(text, a, b, c),
        None => text.extend_from_slice(b"value none\n"),
    }
}

/// The reply where there is a value: `value`, and its three numbers.
fn append_numbers(text: &mut Vec<u8>, a: i64, b: i64, c: i64) -> Result<(), AllocError>
    ensures { Appends text.old.items text.new.items
        (cell_value_text (Some (record { a = a; b = b; c = c }))) result }
{
    text.extend_from_slice(b"value")?;
    append_spaced(text, a)?;
    append_spaced(text, b)?;
    append_spaced(text, c)?;
    text.push(b'\n')?;
    Ok(())
}

/// The reply to a refused line: `no`, and the refusal's number and its name.
fn append_refusal(text: &mut Vec<u8>, refusal: Refusal) -> Result<(), AllocError>
    ensures { Appends text.old.items text.new.items (refusal_text (meaning refusal)) result }
{
    text.extend_from_slice(b"no")?;
    append_spaced(text, refusal.number())?;
    text.push(b' ')?;
    text.extend_from_slice(refusal.name().as_bytes())?;
    text.push(b'\n')?;
    Ok(())
}
