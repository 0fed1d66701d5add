//! A sink over a writer, and so over the standard output.
ghost use Rattle.std.specs.Prelude.{◌≡◌, ◌≢◌, ℕ, ◌⊎◌, ◌++◌, ◌+◌, ◌<◌, ◌≤◌, List, [], length, take, drop, None, OnOk, OnErr, IfErr, IsErrOf};
ghost use Rattle.std.specs.Io.KnownBytes.{Appends, Keeps};
ghost use Rattle.machine_defs.specs.Outside.{Appended};
ghost use Rattle.map_io.specs.Put.{IsPut};
ghost use Rattle.map_io.specs.Cause.{HasCause, IsCounted};

use crate::device::Target;
use crate::{PutFault, Sink};
use std::alloc::Global;
use std::io::{self, Print, Printer, Write};

/// How many bytes a [`WriterSink`] keeps back, at most.
const CAPACITY: usize = 65536;

/// A sink over a writer.
///
/// It gathers short pieces, and hands them on where there are many or where it is flushed. A writer that fails, or that
/// takes nothing of some bytes, is a fault, and so is each call after the first fault; nothing else is. The faults are counted
/// until the count stands at the last number of 64 bits. After its first fault a sink hands nothing on, so the writer has a front
/// of the text.
///
/// It tells the text that it took if the writer tells what it holds. What was not flushed is lost where a sink is
/// dropped.
#[derive(Drop)]
pub struct WriterSink<W> {
    writer: W,
    kept: Vec<u8>,
    faults: u64,
    ghost bounded: { length kept.items ≤ 65536 },
}

/// A sink over the standard output. It tells nothing.
pub type StdSink<'a, P> = WriterSink<Printer<'a, P>>;

impl<'a, P: Print> WriterSink<Printer<'a, P>> {
    /// A sink over the standard output of this runtime, without faults so far. It takes no memory yet.
    pub fn new(alloc: Global, runtime: &'a P) -> StdSink<'a, P>
        ensures untold { ⟦<WriterSink<Printer<'a, P>> as Sink>⟧.written result ≡ None }
        ensures sound { ⟦<WriterSink<Printer<'a, P>> as Sink>⟧.faults result ≡ 0 }
    {
        WriterSink::over(alloc, io::writer(runtime))
    }
}

impl<W: Write> WriterSink<W> {
    ghost use Rattle.map_io.specs.WriterSink.{writer_of, kept_of};

    /// A sink over this writer, without faults so far. It takes no memory yet.
    pub fn over(alloc: Global, writer: W) -> WriterSink<W>
        ensures writer { writer_of result ≡ writer }
        ensures written { Keeps (W.contents writer) (⟦<WriterSink<W> as Sink>⟧.written result) }
        ensures sound { ⟦<WriterSink<W> as Sink>⟧.faults result ≡ 0 }
    {
        WriterSink {
            writer,
            kept: Vec::new(alloc),
            faults: 0,
        }
    }

    /// The writer, which has what was handed on. What is kept back is short.
    pub fn writer(&self) -> &W
        ensures writer { result.now ≡ writer_of self.now }
        ensures bounded { length (kept_of self.now) ≤ 65536 }
    {
        &self.writer
    }
}

impl<W: Target> WriterSink<W> {
    ghost use Rattle.map_io.specs.WriterSink.{written_of, Fails};

    /// Counts a fault.
    fn fail(&mut self) -> PutFault
        ensures counted { Fails self.old self.new result }
        ensures writer { self.new.writer ≡ self.old.writer }
        ensures kept { self.new.kept ≡ self.old.kept }
    {
        self.faults = self.faults.saturating_add(1);
        PutFault::Failed
    }

    /// Takes a piece, to hand it on later.
    fn keep(&mut self, piece: &[u8]) -> Result<(), PutFault>
        requires { length self.old.kept.items + length piece.now ≤ 65536 }
        ensures ok { OnOk result (self.new.kept.items ≡ self.old.kept.items ++ piece.now) }
        ensures err { IfErr result (λ fault. (fault ≡ PutFault.NoMemory)
            × (self.new.kept.items ≡ self.old.kept.items)) }
        ensures writer { self.new.writer ≡ self.old.writer }
        ensures faults { self.new.faults ≡ self.old.faults }
    {
        match self.kept.extend_from_slice(piece) {
            Ok(()) => Ok(()),
            Err(_) => Err(PutFault::NoMemory),
        }
    }

    /// Hands on what was kept back.
    fn hand_on_kept(&mut self) -> Result<(), PutFault>
        ensures text { Keeps (written_of W.contents self.old) (written_of W.contents self.new) }
        ensures ok { OnOk result ((self.new.kept.items ≡ []) × (self.new.faults ≡ self.old.faults)) }
        ensures err { IfErr result (Fails self.old self.new) }
        ensures failed { OnErr result (W.failed self.new.writer) }
    {
        let taken = hand_on(&mut self.writer, self.kept.as_slice());
        let whole = taken == self.kept.len();
        remove_front(&mut self.kept, taken);
        if whole { Ok(()) } else { Err(self.fail()) }
    }

    /// Hands a piece on at once, if nothing is kept back.
    fn hand_on_now(&mut self, piece: &[u8]) -> Result<(), PutFault>
        requires { self.old.kept.items ≡ [] }
        ensures kept { self.new.kept ≡ self.old.kept }
        ensures taken { (taken : ℕ)
            × Appends (W.contents self.old.writer) (W.contents self.new.writer) (take taken piece.now)
            × OnOk result (taken ≡ length piece.now) }
        ensures ok { OnOk result (self.new.faults ≡ self.old.faults) }
        ensures err { IfErr result (Fails self.old self.new) }
        ensures failed { OnErr result (W.failed self.new.writer) }
    {
        let taken = hand_on(&mut self.writer, piece);
        if taken == piece.len() {
            Ok(())
        } else {
            Err(self.fail())
        }
    }
}

impl<W: Target> Sink for WriterSink<W> {
    ghost use Rattle.map_io.specs.WriterSink.{writer_of, written_of, kept_of};

    ghost written = { written_of W.contents };

    ghost kept_back = { kept_of };

    ghost faults = { λ sink. sink.faults };

    fn put(&mut self, piece: &[u8]) -> Result<(), PutFault>
        ensures appended { (text : List ℕ)
            × Appended (⟦<Self as Sink>⟧.written self.old) (⟦<Self as Sink>⟧.written self.new) text
            × IsPut piece.now result text }
        ensures cause { HasCause (⟦<Self as Sink>⟧.faults self.old) (⟦<Self as Sink>⟧.faults self.new)
            (IsErrOf result PutFault.Failed) }
        ensures counted { IsCounted (⟦<Self as Sink>⟧.faults self.old) (⟦<Self as Sink>⟧.faults self.new)
            (IsErrOf result PutFault.Failed) }
        // the call fails only where the writer does, or after a fault
        ensures failed { IsErrOf result PutFault.Failed →
            (0 < ⟦<Self as Sink>⟧.faults self.old) ⊎ W.failed (writer_of self.new) }
        // after a fault it fails, and hands nothing on
        ensures stopped { 0 < ⟦<Self as Sink>⟧.faults self.old → IsErrOf result PutFault.Failed
            × (writer_of self.new ≡ writer_of self.old) }
        ensures bounded { length (⟦<Self as Sink>⟧.kept_back self.new) ≤ 65536 }
    {
        if self.faults > 0 {
            return Err(self.fail());
        }
        if piece.len() <= CAPACITY - self.kept.len() {
            return self.keep(piece);
        }
        self.hand_on_kept()?;
        if piece.len() <= CAPACITY {
            return self.keep(piece);
        }
        self.hand_on_now(piece)
    }

    fn flush(&mut self) -> Result<(), PutFault>
        ensures nothing { Appended (⟦<Self as Sink>⟧.written self.old) (⟦<Self as Sink>⟧.written self.new) [] }
        ensures handed_on { OnOk result (⟦<Self as Sink>⟧.kept_back self.new ≡ []) }
        ensures needs_no_memory { result ≢ Err PutFault.NoMemory }
        ensures cause { HasCause (⟦<Self as Sink>⟧.faults self.old) (⟦<Self as Sink>⟧.faults self.new)
            (IsErrOf result PutFault.Failed) }
        // the writer has all the text, and was flushed itself
        ensures has_all { OnOk result
            (Keeps (⟦<Self as Sink>⟧.written self.old) (W.contents (writer_of self.new))) }
        ensures flushed { OnOk result (W.flushed (writer_of self.new)) }
        ensures counted { IsCounted (⟦<Self as Sink>⟧.faults self.old) (⟦<Self as Sink>⟧.faults self.new)
            (IsErrOf result PutFault.Failed) }
        ensures failed { IsErrOf result PutFault.Failed →
            (0 < ⟦<Self as Sink>⟧.faults self.old) ⊎ W.failed (writer_of self.new) }
        ensures stopped { 0 < ⟦<Self as Sink>⟧.faults self.old → IsErrOf result PutFault.Failed
            × (writer_of self.new ≡ writer_of self.old) }
    {
        if self.faults == 0 {
            self.hand_on_kept()?;
            if self.writer.hand_over() {
                return Ok(());
            }
        }
        Err(self.fail())
    }
}

/// Hands text on to a writer, and answers how many bytes it took: all of them, if the writer does not fail.
fn hand_on<W: Target>(writer: &mut W, text: &[u8]) -> usize
    ensures within { result ≤ length text.now }
    ensures taken { Appends (W.contents writer.old) (W.contents writer.new) (take result text.now) }
    ensures failed { result < length text.now → W.failed writer.new }
{
    let mut taken = 0;
    while taken < text.len() {
        match writer.write_some(&text[taken..]) {
            Some(count) => taken += count,
            None => return taken,
        }
    }
    taken
}

/// Removes the first `count` bytes.
fn remove_front(bytes: &mut Vec<u8>, count: usize)
    requires { count ≤ length bytes.old.items }
    ensures { bytes.new.items ≡ drop count bytes.old.items }
{
    let left = bytes.len() - count;
    bytes.as_mut_slice().copy_within(count.., 0);
    bytes.truncate(left);
}
