//! The soak: lines that a generator of numbers makes, obeyed by the empty map, and their summary.
ghost use Rattle.std.specs.Prelude.{◌≡◌, ◌≢◌, ◌≤◌, ◌<◌, ◌++◌, nat_lt, IfOk, IsErrOf};
ghost use Rattle.machine_defs.specs.Outside.{Rose};
ghost use Rattle.machine_defs.specs.Soaking.{SoakAnswer, soak_line};
ghost use Rattle.machine_defs.specs.Text.{Counts, reply_text, run_status};
ghost use Rattle.map_io.specs.Cause.{HasCause};
ghost use Rattle.map_soak.specs.Summaries.{IsSummary};
ghost use Rattle.text_lines.specs.Writing.{WritesText};
ghost use Rattle.map_run.specs.Commands.{kind_of};
ghost use Rattle.map_run.specs.Ending.{EndsAnswer};

use crate::command::{MapKind, SoakSquares};
use crate::last::put_status;
use attr_rules::Hook;
use map_io::{PutFault, Sink};
use map_kind::{Alpha, Beta};
use map_soak::{SQUARES_MAX, Summary};
use script_text::Reply;
use std::alloc::{AllocError, Global};
use text_lines::{TextLine, append_spaced, put_line};

/// Obeys the lines for so many squares, and writes their summary and the counts of the map that they left. Answers the status.
pub fn soak<S: Sink, H: Hook>(alloc: Global, command: SoakSquares, out: &mut S, hook: &H) -> u8
    requires ready { H.ready hook.now }
    requires count { command.count ≤ SQUARES_MAX }
    ensures ends { EndsAnswer (SoakAnswer (H.hook hook.now) (kind_of command.kind) command.seed command.count)
        (Rose (S.faults out.old) (S.faults out.new)) (S.written out.old) (S.written out.new) result }
    ensures unwritten { result ≡ 6 → Rose (S.faults out.old) (S.faults out.new) }
    ensures later { S.faults out.old ≤ S.faults out.new }
    ensures command { result ≢ 2 }
    ensures unread { result ≢ 5 }
    ensures range { result ≤ 7 }
{
    match soak_in_kind(alloc, command, hook) {
        Ok(summary) => {
            let status = summary_status(&summary);
            put_status(put_summary(alloc, summary, out), status)
        }
        Err(_) => 7,
    }
}

/// The summary of a soak of a kind.
fn soak_in_kind<H: Hook>(
    alloc: Global,
    command: SoakSquares,
    hook: &H,
) -> Result<Summary, AllocError>
    requires ready { H.ready hook.now }
    requires count { command.count ≤ SQUARES_MAX }
    ensures { IfOk result (IsSummary (H.hook hook.now) (kind_of command.kind) command.seed command.count) }
{
    let SoakSquares { kind, seed, count } = command;
    match kind {
        MapKind::Generalized => map_soak::soak::<Alpha, H>(alloc, hook, seed, count),
        MapKind::Combinatorial => map_soak::soak::<Beta, H>(alloc, hook, seed, count),
    }
}

/// The status of a soak: 1 if some line was refused, else 0.
fn summary_status(summary: &Summary) -> u8
    ensures { result ≡ run_status (nat_lt summary.now.accepted summary.now.lines) }
{
    if summary.accepted < summary.lines {
        1
    } else {
        0
    }
}

/// Writes the summary of a soak, and then the counts of its map.
fn put_summary<S: Sink>(alloc: Global, summary: Summary, out: &mut S) -> Result<(), PutFault>
    ensures written { WritesText (S.written out.old) (S.written out.new) result
        (soak_line summary.lines summary.accepted summary.total ++ reply_text (Counts summary.counts.items)) }
    ensures cause { HasCause (S.faults out.old) (S.faults out.new) (IsErrOf result PutFault.Failed) }
{
    let line = SoakLine {
        lines: summary.lines,
        accepted: summary.accepted,
        total: summary.total,
    };
    put_line(alloc, out, &line)?;
    put_line(alloc, out, &Reply::Count(summary.counts))
}

/// The first line of a summary: how many lines there were, how many were accepted, and the total of the values.
#[derive(Clone, Copy, Debug, PartialEq, Eq)]
struct SoakLine {
    lines: u64,
    accepted: u64,
    total: i128,
}

impl TextLine for SoakLine {
    ghost use Rattle.std.specs.Prelude.{◌++◌, codes, refl};
    ghost use Rattle.std.proofs.Common.{inr};
    ghost use Rattle.machine_defs.specs.Text.{spaced, spaced_signed};
    ghost use Rattle.machine_defs.specs.Soaking.{soak_line};

    ghost line = { λ l. soak_line l.lines l.accepted l.total };

    fn append_to(&self, text: &mut Vec<u8>) -> Result<(), AllocError> {
        text.extend_from_slice(b"soak")?;
        append_spaced(text, self.lines)?;
        append_spaced(text, self.accepted)?;
        append_spaced(text, self.total)?;
        text.push(b'\n')?;
        Ok(())
    }

    ghost ends = { λ l. inr (codes "soak" ++ spaced l.lines ++ spaced l.accepted ++ spaced_signed l.total, refl) };
}
