//! What the map answers, as the program says it.
ghost use Rattle.std.specs.Prelude.{◌≡◌, IfOk, IsErrOf};
ghost use Rattle.map_defs.specs.Values.{Hook};
ghost use Rattle.machine_defs.specs.State.{State};
ghost use Rattle.machine_defs.specs.Script.{Line as MapLine};
ghost use Rattle.machine_defs.specs.Machine.{Step};
ghost use Rattle.machine_defs.specs.Text.{reply_text, Truth, Darts, CellValue, Counts, Logged, Meshed, is_refused};
ghost use Rattle.map_core.specs.Calls.{AnswersQuestion, AnswersAtOnce};
ghost use Rattle.map_io.specs.Cause.{HasCause};
ghost use Rattle.off_text.specs.MapViews.{off_view};
ghost use Rattle.script_text.specs.Meanings.{reply_meaning};
ghost use Rattle.text_lines.specs.Writing.{WritesText};
ghost use Rattle.map_run.specs.Lines.{answer_meaning};

use list_text::{Listing, put_listing};
use map_io::{PutFault, Sink};
use map_kind::{Dart, Refusal, Refused, Value};
use off_text::{OffRows, put_off};
use script_text::{Reply, put_log};
use std::alloc::{AllocError, Global};
use undo_journal::Step as Changed;

/// The answer to a line: a reply of one line, a listing, the points and faces of a map, or the steps of a log, which are lent.
#[derive(Drop)]
pub enum Answer<'a> {
    Line(Reply),
    Listing(Listing),
    Off(OffRows),
    Log(&'a [Changed]),
}

impl<'a> Answer<'a> {
    /// Whether the line was refused.
    pub fn is_refused(&self) -> bool
        ensures { result ≡ is_refused (answer_meaning self.now) }
    {
        match self {
            Answer::Line(reply) => reply.is_refused(),
            Answer::Listing(_) | Answer::Off(_) | Answer::Log(_) => false,
        }
    }

    /// Puts the text of the answer to a sink, each line in one piece. A reply of one line is written over `text` first.
    pub fn put_to<S: Sink>(
        &self,
        alloc: Global,
        text: &mut Vec<u8>,
        out: &mut S,
    ) -> Result<(), PutFault>
        ensures written { WritesText (S.written out.old) (S.written out.new) result (reply_text (answer_meaning self.now)) }
        ensures cause { HasCause (S.faults out.old) (S.faults out.new) (IsErrOf result PutFault.Failed) }
    {
        match self {
            Answer::Line(reply) => reply.put_over(text, out),
            Answer::Listing(listing) => put_listing(alloc, out, listing),
            Answer::Off(rows) => put_off(alloc, out, rows),
            Answer::Log(steps) => put_log(alloc, out, steps),
        }
    }
}

/// What is said of a question of yes or no.
pub fn truth<'a>(answer: Result<bool, Refused>) -> Result<Answer<'a>, AllocError>
    ensures { (hook : Hook) (s : State) (line : MapLine) → AnswersQuestion hook s line Truth answer → IfOk result (λ said. Step hook s line (answer_meaning said) s) }
{
    match answer {
        Ok(answer) => Ok(Answer::Line(Reply::Truth(answer))),
        Err(Refused::Line(refusal)) => Ok(Answer::Line(Reply::No(refusal))),
        Err(Refused::NoMemory) => Err(AllocError),
    }
}

/// What is said of a question of yes or no that takes no memory.
pub fn told<'a>(answer: Result<bool, Refusal>) -> Answer<'a>
    ensures { (hook : Hook) (s : State) (line : MapLine) → AnswersAtOnce hook s line Truth answer → Step hook s line (answer_meaning result) s }
{
    match answer {
        Ok(answer) => Answer::Line(Reply::Truth(answer)),
        Err(refusal) => Answer::Line(Reply::No(refusal)),
    }
}

/// What is said of the value of a cell.
pub fn cell_value<'a>(value: Result<Option<Value>, Refusal>) -> Answer<'a>
    ensures { (hook : Hook) (s : State) (line : MapLine) → AnswersAtOnce hook s line CellValue value → Step hook s line (answer_meaning result) s }
{
    match value {
        Ok(value) => Answer::Line(Reply::Value(value)),
        Err(refusal) => Answer::Line(Reply::No(refusal)),
    }
}

/// What is said of the darts of a cell.
pub fn darts<'a>(darts: Result<Vec<Dart>, Refused>) -> Result<Answer<'a>, AllocError>
    ensures { (hook : Hook) (s : State) (line : MapLine) → AnswersQuestion hook s line (λ found. Darts found.items) darts → IfOk result (λ said. Step hook s line (answer_meaning said) s) }
{
    match darts {
        Ok(darts) => Ok(Answer::Line(Reply::Cell(darts))),
        Err(Refused::Line(refusal)) => Ok(Answer::Line(Reply::No(refusal))),
        Err(Refused::NoMemory) => Err(AllocError),
    }
}

/// What is said of the counts of a map.
pub fn counts<'a>(counts: Result<Vec<u64>, AllocError>) -> Result<Answer<'a>, AllocError>
    ensures { (hook : Hook) (s : State) (line : MapLine) → IfOk counts (λ found. Step hook s line (Counts found.items) s) → IfOk result (λ said. Step hook s line (answer_meaning said) s) }
{
    Ok(Answer::Line(Reply::Count(counts?)))
}

/// What is said of the OFF text of a map.
pub fn meshed<'a>(rows: Result<OffRows, Refused>) -> Result<Answer<'a>, AllocError>
    ensures { (hook : Hook) (s : State) (line : MapLine) → AnswersQuestion hook s line (λ off. Meshed (off_view off)) rows → IfOk result (λ said. Step hook s line (answer_meaning said) s) }
{
    match rows {
        Ok(rows) => Ok(Answer::Off(rows)),
        Err(Refused::Line(refusal)) => Ok(Answer::Line(Reply::No(refusal))),
        Err(Refused::NoMemory) => Err(AllocError),
    }
}

/// What is said of a log: the steps, as the map lends them.
pub fn logged(steps: Result<&[Changed], Refusal>) -> Answer<'_>
    ensures { (hook : Hook) (s : State) (line : MapLine) → AnswersAtOnce hook s line (λ found. Logged found.now) steps.entry → Step hook s line (answer_meaning result) s }
{
    match steps {
        Ok(steps) => Answer::Log(steps),
        Err(refusal) => Answer::Line(Reply::No(refusal)),
    }
}
