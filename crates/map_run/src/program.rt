//! The top call: what the whole program does.
ghost use Rattle.std.specs.Prelude.{◌≡◌, ◌≢◌, ℕ, ◌⊎◌, ◌≤◌, List, [], Some, map, string_bytes, nat_lt, if◌then◌else◌};
ghost use Rattle.machine_defs.specs.Outside.{Files, Rose};
ghost use Rattle.machine_defs.specs.Program.{TellsCommand, NeedsFile, IsNeededBy, Known, IsNoCommand};
ghost use Rattle.map_run.specs.Commands.{run_of};
ghost use Rattle.map_run.specs.Ending.{EndsCall, EndsWhole};

use crate::audit::audit;
use crate::command::{Command, RunScript, read_command};
use crate::files::fetch_texts;
use crate::half::half;
use crate::last::{write_last, write_unfetched};
use crate::obey::obey_in_kind;
use crate::soak::soak;
use attr_rules::Hook;
use map_io::{Shelf, Sink};
use std::alloc::Global;

/// Fetches the files of the command, obeys the script and writes the replies; or writes the line that says why a file was
/// not fetched, or why the mesh is refused.
fn run_script<F: Shelf, S: Sink, H: Hook>(
    alloc: Global,
    command: RunScript<'_>,
    shelf: &mut F,
    out: &mut S,
    hook: &H,
) -> u8
    requires ready { H.ready hook.now }
    requires asked { (name : List ℕ) → IsNeededBy (run_of command) name → F.may_ask shelf.old name }
    ensures outcome { (words : List (List ℕ)) (files : Files) → TellsCommand words (run_of command.entry)
        → F.holds shelf.old ≡ Some files →
        EndsCall (H.hook hook.now) (S.written out.old) (S.written out.new) words files
        (Rose (F.faults shelf.old) (F.faults shelf.new)) (Rose (S.faults out.old) (S.faults out.new)) result }
    ensures command { result ≢ 2 }
    ensures range { result ≤ 7 }
    ensures unread { result ≡ 5 → Rose (F.faults shelf.old) (F.faults shelf.new) }
    ensures unwritten { result ≡ 6 → Rose (S.faults out.old) (S.faults out.new) }
    ensures later { S.faults out.old ≤ S.faults out.new }
{
    match fetch_texts(alloc, command, shelf) {
        Ok(texts) => obey_in_kind(alloc, command.kind, command.dimension, &texts, out, hook),
        Err(fault) => write_unfetched(out, fault),
    }
}

/// The status after what was kept back could not be handed on: 6, unless the text was cut short before.
fn unflushed(status: u8) -> u8
    ensures { result ≡ (if nat_lt status 6 then 6 else status) }
{
    if status < 6 { 6 } else { status }
}

/// Answers the words, though the sink may keep back some of the text.
fn answer<F: Shelf, S: Sink, H: Hook>(
    alloc: Global,
    words: &[String],
    shelf: &mut F,
    out: &mut S,
    hook: &H,
) -> u8
    requires ready { H.ready hook.now }
    requires asked { (name : List ℕ) → NeedsFile (map string_bytes words.now) name → F.may_ask shelf.old name }
    ensures outcome { (files : Files) → Known (map string_bytes words.now) (F.holds shelf.old) files →
        EndsCall (H.hook hook.now) (S.written out.old) (S.written out.new) (map string_bytes words.now) files
        (Rose (F.faults shelf.old) (F.faults shelf.new)) (Rose (S.faults out.old) (S.faults out.new)) result }
    ensures usage { result ≡ 2 → IsNoCommand (map string_bytes words.now) }
    ensures range { result ≤ 7 }
    ensures unread { result ≡ 5 → Rose (F.faults shelf.old) (F.faults shelf.new) }
    ensures unwritten { result ≡ 6 → Rose (S.faults out.old) (S.faults out.new) }
    ensures later { S.faults out.old ≤ S.faults out.new }
{
    match read_command(words) {
        Some(Command::Run(command)) => run_script(alloc, command, shelf, out, hook),
        Some(Command::Audit(name)) => audit(alloc, name, shelf, out),
        Some(Command::Half(name)) => half(alloc, name, shelf, out),
        Some(Command::Soak(command)) => soak(alloc, command, out, hook),
        None => write_last(out, b"usage\n", 2),
    }
}

/// What `run` does, with all clauses of it but `complete`.
fn serve<F: Shelf, S: Sink, H: Hook>(
    alloc: Global,
    words: &[String],
    shelf: &mut F,
    out: &mut S,
    hook: &H,
) -> u8
    requires ready { H.ready hook.now }
    requires asked { (name : List ℕ) → NeedsFile (map string_bytes words.now) name → F.may_ask shelf.old name }
    ensures outcome { (files : Files) → Known (map string_bytes words.now) (F.holds shelf.old) files →
        EndsCall (H.hook hook.now) (S.written out.old) (S.written out.new) (map string_bytes words.now) files
        (Rose (F.faults shelf.old) (F.faults shelf.new)) (Rose (S.faults out.old) (S.faults out.new)) result }
    ensures usage { result ≡ 2 → IsNoCommand (map string_bytes words.now) }
    ensures range { result ≤ 7 }
    ensures unread { result ≡ 5 → Rose (F.faults shelf.old) (F.faults shelf.new) }
    ensures unwritten { result ≡ 6 → Rose (S.faults out.old) (S.faults out.new) }
    ensures handed_on { result ≤ 5 → S.kept_back out.new ≡ [] }
{
    let status = answer(alloc, words, shelf, out, hook);
    match out.flush() {
        Ok(()) => status,
        Err(_) => unflushed(status),
    }
}

/// Runs the program on its words, the program's name left out: it fetches the files that the words need from the shelf,
/// puts the text that answers them to the sink, line by line, and answers its status. The hook is the rule that a caller
/// hands in beside the table of rules.
///
/// The words are `run KIND DIM MESH SCRIPT`, where KIND is `g` for a generalized map or `c` for a combinatorial map, DIM is
/// 2, 3 or 4, MESH is the name of a mesh in OFF text, or `-` for the empty map, and SCRIPT is the name of a script, which is
/// obeyed from that map. Both files are fetched, the mesh first, before the mesh is read. Or the words are `audit FILE`: the
/// listing in FILE is read, and written again with the counts of its map. Or the words are `half FILE`: the listing in FILE is
/// read, and the listing of the oriented half of its map is written, or of its double where it is a combinatorial map, and
/// then, behind `from`, the darts that the new ones stand for. Or the words are `soak KIND SEED COUNT`, where SEED is
/// a number below 2^31 and COUNT one from 1 to 100,000: COUNT squares are made, sewn to each other, valued and changed by lines
/// that a generator draws from SEED, and their summary is written, with the counts of the map; no file is needed. Other words
/// are answered by `usage`.
///
/// | status | when | text |
/// |---|---|---|
/// | 0 | every line was accepted, or the listing was read | the replies, the listing and its counts, the half or the double and its origins, or the summary and the counts |
/// | 1 | some line was refused | the replies, or the summary and the counts |
/// | 2 | the words are no command | `usage` |
/// | 3 | the mesh or the listing is refused, or the map of the listing has no half | `off line N WHAT`, `off face N WHAT` or `off Full`; `listing line N WHAT`; `half Boundary`, `half Folded D I` or `half odd D` |
/// | 4 | a file has more than 16,777,216 bytes | `too long` |
/// | 5 | the shelf has no such file, or could not read it | `cannot read` |
/// | 6 | the sink could not take the text | a front of the text, or of `cannot read` where the shelf had a fault |
/// | 7 | there was not enough memory | such a front that is empty or ends with a line |
///
/// With the statuses 0 to 5 the sink has handed on all that it took. What is said of the text holds where the shelf tells
/// what it holds and the sink what was written; what is said of the statuses 2, 5 and 6, and of what was handed on, holds
/// always. Nothing else is free: where no fault was counted the answer is the whole text and its
/// status, or 7.
pub fn run<F: Shelf, S: Sink, H: Hook>(
    alloc: Global,
    words: &[String],
    shelf: &mut F,
    out: &mut S,
    hook: &H,
) -> u8
    requires ready { H.ready hook.now }
    requires asked { (name : List ℕ) → NeedsFile (map string_bytes words.now) name → F.may_ask shelf.old name }
    ensures outcome { (files : Files) → Known (map string_bytes words.now) (F.holds shelf.old) files →
        EndsCall (H.hook hook.now) (S.written out.old) (S.written out.new) (map string_bytes words.now) files
        (Rose (F.faults shelf.old) (F.faults shelf.new)) (Rose (S.faults out.old) (S.faults out.new)) result }
    ensures complete { (files : Files) → Known (map string_bytes words.now) (F.holds shelf.old) files →
        ¬ (Rose (F.faults shelf.old) (F.faults shelf.new)) → ¬ (Rose (S.faults out.old) (S.faults out.new)) →
        (result ≡ 7) ⊎ EndsWhole (H.hook hook.now) (S.written out.old) (S.written out.new) (map string_bytes words.now) files result }
    ensures usage { result ≡ 2 → IsNoCommand (map string_bytes words.now) }
    ensures range { result ≤ 7 }
    ensures unread { result ≡ 5 → Rose (F.faults shelf.old) (F.faults shelf.new) }
    ensures unwritten { result ≡ 6 → Rose (S.faults out.old) (S.faults out.new) }
    ensures handed_on { result ≤ 5 → S.kept_back out.new ≡ [] }
{
    serve(alloc, words, shelf, out, hook)
}
