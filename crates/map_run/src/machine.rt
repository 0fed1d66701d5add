//! One line of a script, obeyed.
ghost use Rattle.std.specs.Prelude.{◌≡◌, ℕ, List, Some, IfOk, IfErr, IsErrOf};
ghost use Rattle.map_defs.specs.TextWords.{words_of};
ghost use Rattle.machine_defs.specs.Machine.{Step};
ghost use Rattle.machine_defs.specs.Script.{line_of};
ghost use Rattle.map_core.specs.Calls.{Does};
ghost use Rattle.map_io.specs.Cause.{HasCause};
ghost use Rattle.script_text.specs.Meanings.{change_meaning, question_meaning, reply_meaning};
ghost use Rattle.map_run.specs.Lines.{answer_meaning, IsTold};
ghost use Rattle.map_run.specs.Writing.{AnswersLine, Says, SaysMade, SaysRefused};

use crate::answer::{Answer, cell_value, counts, darts, logged, meshed, told, truth};
use attr_rules::Hook;
use map_core::{Done, Edits, Map};
use map_io::{PutFault, Sink};
use map_kind::{Refusal, Refused};
use script_text::{Change, Line, Question, Reply, read_line};
use std::alloc::{AllocError, Global};

/// Obeys one line, writes its reply, and answers whether it was refused. A reply of one line is written over `text` first.
pub fn obey_line<K: Edits<DIM>, H: Hook, const DIM: usize, S: Sink>(
    alloc: Global,
    line: &[u8],
    map: &mut Map<'_, K, H, DIM>,
    text: &mut Vec<u8>,
    out: &mut S,
) -> Result<bool, PutFault>
    requires { H.ready map.old.hook }
    ensures answered { AnswersLine (H.hook map.old.hook) (S.written out.old) (S.written out.new) map.old.state map.new.state (words_of line.now) result }
    ensures hook { map.new.hook ≡ map.old.hook }
    ensures cause { HasCause (S.faults out.old) (S.faults out.new) (IsErrOf result PutFault.Failed) }
{
    match read_line(alloc, line) {
        Ok(None) => Ok(false),
        Ok(Some(Line::Change(line))) => say_made(text, out, change(alloc, &line, map)),
        Ok(Some(Line::Question(line))) => answer_question(alloc, &line, map, text, out),
        Err(refused) => say_refused(text, out, refused),
    }
}

/// Writes the reply to a changing line, if there is one, and tells whether it is a refusal.
fn say_made<S: Sink>(
    text: &mut Vec<u8>,
    out: &mut S,
    made: Result<Done, Refused>,
) -> Result<bool, PutFault>
    ensures said { SaysMade (S.written out.old) (S.written out.new) made result }
    ensures cause { HasCause (S.faults out.old) (S.faults out.new) (IsErrOf result PutFault.Failed) }
{
    match made {
        Ok(done) => say_done(text, out, done),
        Err(refused) => say_refused(text, out, refused),
    }
}

/// Writes what a changing line made.
fn say_done<S: Sink>(text: &mut Vec<u8>, out: &mut S, done: Done) -> Result<bool, PutFault>
    ensures said { Says (S.written out.old) (S.written out.new) (reply_meaning (Reply.Done done)) result }
    ensures cause { HasCause (S.faults out.old) (S.faults out.new) (IsErrOf result PutFault.Failed) }
{
    Reply::Done(done).put_over(text, out)?;
    Ok(false)
}

/// Writes why a line was refused; where memory was wanting there is no reply.
fn say_refused<S: Sink>(text: &mut Vec<u8>, out: &mut S, refused: Refused) -> Result<bool, PutFault>
    ensures said { SaysRefused (S.written out.old) (S.written out.new) refused result }
    ensures cause { HasCause (S.faults out.old) (S.faults out.new) (IsErrOf result PutFault.Failed) }
{
    match refused {
        Refused::Line(refusal) => say_refusal(text, out, refusal),
        Refused::NoMemory => Err(PutFault::NoMemory),
    }
}

/// Writes a refusal.
fn say_refusal<S: Sink>(text: &mut Vec<u8>, out: &mut S, refusal: Refusal) -> Result<bool, PutFault>
    ensures said { Says (S.written out.old) (S.written out.new) (reply_meaning (Reply.No refusal)) result }
    ensures cause { HasCause (S.faults out.old) (S.faults out.new) (IsErrOf result PutFault.Failed) }
{
    Reply::No(refusal).put_over(text, out)?;
    Ok(true)
}

/// Answers a line that asks, and tells whether it was refused.
fn answer_question<K: Edits<DIM>, H: Hook, const DIM: usize, S: Sink>(
    alloc: Global,
    line: &Question,
    map: &Map<'_, K, H, DIM>,
    text: &mut Vec<u8>,
    out: &mut S,
) -> Result<bool, PutFault>
    ensures answered { (words : List (List ℕ)) → line_of words ≡ Some (question_meaning line.now)
        → AnswersLine (H.hook map.now.hook) (S.written out.old) (S.written out.new) map.now.state map.now.state words result }
    ensures cause { HasCause (S.faults out.old) (S.faults out.new) (IsErrOf result PutFault.Failed) }
{
    say(alloc, text, out, ask(alloc, line, map))
}

/// Writes an answer, if there is one, and tells whether it is a refusal.
fn say<S: Sink>(
    alloc: Global,
    text: &mut Vec<u8>,
    out: &mut S,
    answer: Result<Answer<'_>, AllocError>,
) -> Result<bool, PutFault>
    ensures said { IfOk answer.entry (λ answer. Says (S.written out.old) (S.written out.new) (answer_meaning answer) result) }
    ensures unsaid { IfErr answer.entry (λ fault. (result ≡ Err PutFault.NoMemory) × (S.written out.new ≡ S.written out.old)) }
    ensures cause { HasCause (S.faults out.old) (S.faults out.new) (IsErrOf result PutFault.Failed) }
{
    match answer {
        Ok(answer) => {
            answer.put_to(alloc, text, out)?;
            Ok(answer.is_refused())
        }
        Err(_) => Err(PutFault::NoMemory),
    }
}

/// Has the map obey a line that changes it, and answers what it made.
fn change<K: Edits<DIM>, H: Hook, const DIM: usize>(
    alloc: Global,
    line: &Change,
    map: &mut Map<'_, K, H, DIM>,
) -> Result<Done, Refused>
    requires ready { H.ready map.old.hook }
    requires told { IsTold line.now }
    ensures hook { map.new.hook ≡ map.old.hook }
    ensures does { Does (H.hook map.old.hook) map.old.state (change_meaning line.now) result map.new.state }
{
    match line {
        Change::Polygon(sides) => map.polygon(alloc, *sides),
        Change::Dart => map.dart(alloc),
        Change::Del(dart) => map.del(alloc, *dart),
        Change::Sew(link, one, other) => map.sew(alloc, *link, *one, *other),
        Change::Unsew(link, dart) => map.unsew(alloc, *link, *dart),
        Change::Vertex(dart) => map.vertex(alloc, *dart),
        Change::Edge(one, other) => map.edge(alloc, *one, *other),
        Change::Face(path) => map.face(alloc, path),
        Change::Remove(dim, dart) => map.remove(alloc, *dim, *dart),
        Change::Contract(dim, dart) => map.contract(alloc, *dim, *dart),
        Change::Dual => map.dual(alloc),
        Change::Close(link) => map.close(alloc, *link),
        Change::Dangle(dart) => map.dangle(alloc, *dart),
        Change::Center(dart) => map.center(alloc, *dart),
        Change::Rule(dim, merge, split) => map.rule(alloc, *dim, merge.as_str(), split.as_str()),
        Change::Set(dim, dart, value) => map.set(alloc, *dim, *dart, *value),
        Change::Clear(dim, dart) => map.clear(alloc, *dim, *dart),
        Change::Mark(name) => map.mark(name.as_str()),
        Change::Undo(name) => map.undo(alloc, name.as_str()),
        Change::Redo(name) => map.redo(alloc, name.as_str()),
    }
}

/// Has the map answer a line that asks; the steps of a log are lent.
fn ask<'a, K: Edits<DIM>, H: Hook, const DIM: usize>(
    alloc: Global,
    line: &Question,
    map: &'a Map<'_, K, H, DIM>,
) -> Result<Answer<'a>, AllocError>
    ensures { IfOk result (λ answer. Step (H.hook map.now.hook) map.now.state (question_meaning line.now) (answer_meaning answer) map.now.state) }
{
    match line {
        Question::Log(name) => Ok(logged(map.log(name.as_str()))),
        Question::Cell(dim, dart) => darts(map.cell(alloc, *dim, *dart)),
        Question::Same(dim, one, other) => truth(map.same(alloc, *dim, *one, *other)),
        Question::Free(link, dart) => Ok(told(map.free(*link, *dart))),
        Question::Value(dim, dart) => Ok(cell_value(map.value(*dim, *dart))),
        Question::Removable(dim, dart) => truth(map.removable(alloc, *dim, *dart)),
        Question::Contractible(dim, dart) => truth(map.contractible(alloc, *dim, *dart)),
        Question::Sewable(link, one, other) => truth(map.sewable(alloc, *link, *one, *other)),
        Question::Off => meshed(map.off_rows(alloc)),
        Question::Count => counts(map.count(alloc)),
        Question::Show => Ok(Answer::Listing(map.listing(alloc)?)),
    }
}
