//! The text of a log, written line by line.
ghost use Rattle.std.specs.Prelude.{◌≡◌, IfOk, IsErrOf};
ghost use Rattle.machine_defs.specs.LogText.{step_text, steps_text, log_text};
ghost use Rattle.map_io.specs.Cause.{HasCause};
ghost use Rattle.text_lines.specs.Writing.{WritesText};

use crate::LogLine;
use map_io::{PutFault, Sink, SureSink};
use std::alloc::{AllocError, Global};
use std::iter;
use text_lines::{put_line, put_lines};
use undo_journal::Step;

/// The text of a log: how many steps there are, then the lines of each step, numbered from 1, and `end`. Nothing is asked
/// of the steps: they are written as they stand, in their order. The one error is want of memory.
pub fn log_text(alloc: Global, steps: &[Step]) -> Result<Vec<u8>, AllocError>
    ensures { IfOk result (λ written. written.items ≡ log_text steps.now) }
{
    let mut out = SureSink::new(alloc);
    match put_log(alloc, &mut out, steps) {
        Ok(()) => Ok(out.into_written()),
        Err(_) => Err(AllocError),
    }
}

/// Puts the text of a log to a sink, each line in one piece. After `NoMemory` the sink has whole lines of the text, and
/// after `Failed` a front of it.
pub fn put_log<S: Sink>(alloc: Global, out: &mut S, steps: &[Step]) -> Result<(), PutFault>
    ensures written { WritesText (S.written out.old) (S.written out.new) result (log_text steps.now) }
    ensures cause { HasCause (S.faults out.old) (S.faults out.new) (IsErrOf result PutFault.Failed) }
{
    let header = LogLine::Log { steps: steps.len() };
    put_line(alloc, out, &header)?;
    put_steps(alloc, out, steps)?;
    put_line(alloc, out, &LogLine::End)
}

/// Puts the lines of each step, numbered from 1.
fn put_steps<S: Sink>(alloc: Global, out: &mut S, steps: &[Step]) -> Result<(), PutFault>
    ensures written { WritesText (S.written out.old) (S.written out.new) result (steps_text 1 steps.now) }
    ensures cause { HasCause (S.faults out.old) (S.faults out.new) (IsErrOf result PutFault.Failed) }
{
    for (index, step) in steps.iter().enumerate() {
        put_step(alloc, out, index + 1, step)?;
    }
    Ok(())
}

/// Puts the lines of a step.
fn put_step<S: Sink>(alloc: Global, out: &mut S, number: usize, step: &Step) -> Result<(), PutFault>
    ensures written { WritesText (S.written out.old) (S.written out.new) result (step_text number step.now) }
    ensures cause { HasCause (S.faults out.old) (S.faults out.new) (IsErrOf result PutFault.Failed) }
{
    let born = LogLine::Born {
        first: step.first,
        births: step.edit.births,
    };
    let lines = iter::once(LogLine::Step { number })
        .chain(iter::once(born))
        .chain(iter::once(LogLine::Dead(step.edit.deaths.as_slice())))
        .chain(step.edit.changes.iter().map(LogLine::Link))
        .chain(step.values.iter().map(LogLine::Value))
        .chain(step.rules.iter().map(LogLine::Rule));
    put_lines(alloc, out, lines)
}
