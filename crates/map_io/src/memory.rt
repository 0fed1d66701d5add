//! A shelf and a sink in memory, of which some calls fail: those that they are told.
ghost use Rattle.std.specs.Prelude.{◌≡◌, ℕ, ◌⊎◌, ◌++◌, ◌↔◌, IsTrue, List, [], Some, None, Contains, length, take, OnOk, IsErrOf, Ok};
ghost use Rattle.machine_defs.specs.Outside.{held, Appended};
ghost use Rattle.map_io.specs.Held.{files_of};
ghost use Rattle.map_io.specs.Failing.{next_call, taken_at};
ghost use Rattle.map_io.specs.Fetched.{IsFetched};
ghost use Rattle.map_io.specs.Put.{IsPut};
ghost use Rattle.map_io.specs.Cause.{HasCause, IsCounted};

use crate::sure::{copy_up_to, find};
use crate::{FetchFault, Held, PutFault, Shelf, Sink};
use std::alloc::Global;
use std::marker::Model;

/// A shelf of files in memory, of which some calls fail.
///
/// A call whose number stands in a list fails, and so does a call for a name that is not held; no other call does. Calls are
/// numbered from 1, until the last number of 64 bits. A caller may ask for any name. Where a name stands twice, its first
/// bytes are held.
#[derive(Debug, Drop)]
pub struct MemShelf {
    files: Vec<Held>,
    fail: Vec<u64>,
    calls: u64,
    faults: u64,
}

impl Model for MemShelf {
    ghost use Rattle.map_io.specs.Held.{files_of};
    ghost use Rattle.map_io.specs.Failing.{FailingFiles};

    ghost Value = { FailingFiles };

    ghost view = { λ s. record { files = files_of s.files.items; fail = s.fail.items; calls = s.calls; faults = s.faults } };
}

impl MemShelf {
    /// A shelf that holds these files, and tells them, and whose calls of the numbers in `fail` fail. It takes no memory.
    pub fn new(files: Vec<Held>, fail: Vec<u64>) -> MemShelf
        ensures holds { ⟦<MemShelf as Shelf>⟧.holds result ≡ Some (files_of files.items) }
        ensures asked { (name : List ℕ) → ⟦<MemShelf as Shelf>⟧.may_ask result name }
        ensures sound { ⟦<MemShelf as Shelf>⟧.faults result ≡ 0 }
        ensures fail { result.fail ≡ fail.items }
        ensures calls { result.calls ≡ 0 }
    {
        MemShelf {
            files,
            fail,
            calls: 0,
            faults: 0,
        }
    }

    /// Counts a call, and answers whether it is one that fails.
    fn call(&mut self) -> bool
        ensures fails { IsTrue result ↔ Contains self.old.fail (next_call self.old.calls) }
        ensures called { self.new.calls ≡ next_call self.old.calls }
        ensures files { self.new.files ≡ self.old.files }
        ensures fail { self.new.fail ≡ self.old.fail }
        ensures faults { self.new.faults ≡ self.old.faults }
    {
        self.calls = self.calls.saturating_add(1);
        self.fail.contains(&self.calls)
    }
}

impl Shelf for MemShelf {
    ghost holds = { λ shelf. Some shelf.files };

    ghost faults = { λ shelf. shelf.faults };

    ghost may_ask = { λ _ _. Unit {0} };

    fn fetch(&mut self, alloc: Global, name: &str, limit: u64) -> Result<Vec<u8>, FetchFault>
        ensures bytes { IsFetched (Some self.old.files) name.now limit result }
        // of a file that is too long, all bytes were seen
        ensures seen { (seen : ℕ) → IsErrOf result (FetchFault.TooLong seen) →
            (bytes : List ℕ) × (held self.old.files name.now ≡ Some bytes) × (seen ≡ length bytes) }
        // the call fails exactly where it is told to, and where no such file is held
        ensures failed { IsErrOf result FetchFault.Failed ↔
            (Contains self.old.fail (next_call self.old.calls) ⊎ (held self.old.files name.now ≡ None)) }
        ensures called { self.new.calls ≡ next_call self.old.calls }
        ensures counted { IsCounted self.old.faults self.new.faults (IsErrOf result FetchFault.Failed) }
        ensures cause { HasCause self.old.faults self.new.faults (IsErrOf result FetchFault.Failed) }
        ensures same { self.new.files ≡ self.old.files }
        ensures fail { self.new.fail ≡ self.old.fail }
    {
        if self.call() {
            self.faults = self.faults.saturating_add(1);
            return Err(FetchFault::Failed);
        }
        match find(self.files.as_slice(), name) {
            Some(bytes) => copy_up_to(alloc, bytes, limit),
            None => {
                self.faults = self.faults.saturating_add(1);
                Err(FetchFault::Failed)
            }
        }
    }
}

/// A call of a sink that fails: its number, from 1, and how many bytes of its piece are taken nevertheless, at most all.
#[derive(Clone, Copy, Debug, PartialEq, Eq)]
pub struct SinkFail {
    pub call: u64,
    pub taken: u64,
}

/// A sink in memory, of which some puts fail, and which tells what was written.
///
/// A put whose number is told fails, after it took as many bytes as are told; no other put does, and no flush. Puts are
/// numbered from 1, until the last number of 64 bits.
#[derive(Debug, Drop)]
pub struct MemSink {
    text: Vec<u8>,
    fail: Vec<SinkFail>,
    calls: u64,
    faults: u64,
}

impl Model for MemSink {
    ghost use Rattle.map_io.specs.Failing.{FailingText};

    ghost Value = { FailingText };

    ghost view = { λ s. record { text = s.text.items; fail = s.fail.items; calls = s.calls; faults = s.faults } };
}

impl MemSink {
    /// A sink to which nothing was written yet, and whose puts fail as told; the first entry for a put counts. It takes no
    /// memory.
    pub fn new(alloc: Global, fail: Vec<SinkFail>) -> MemSink
        ensures written { ⟦<MemSink as Sink>⟧.written result ≡ Some [] }
        ensures sound { ⟦<MemSink as Sink>⟧.faults result ≡ 0 }
        ensures fail { result.fail ≡ fail.items }
        ensures calls { result.calls ≡ 0 }
    {
        MemSink {
            text: Vec::new(alloc),
            fail,
            calls: 0,
            faults: 0,
        }
    }

    /// All that was written so far.
    pub fn written(&self) -> &[u8]
        ensures { ⟦<MemSink as Sink>⟧.written self.now ≡ Some result.now }
    {
        self.text.as_slice()
    }
}

/// How many bytes the put of this number takes if it fails; none where it does not.
fn taken(fail: &[SinkFail], call: u64) -> Option<u64>
    ensures { result ≡ taken_at fail.now call }
{
    for told in fail {
        if told.call == call {
            return Some(told.taken);
        }
    }
    None
}

impl Sink for MemSink {
    ghost written = { λ sink. Some sink.text };

    ghost kept_back = { λ _. [] };

    ghost faults = { λ sink. sink.faults };

    fn put(&mut self, piece: &[u8]) -> Result<(), PutFault>
        // a put that is not told to fail takes the whole piece
        ensures ok { OnOk result ((taken_at self.old.fail (next_call self.old.calls) ≡ None)
            × (self.new.text ≡ self.old.text ++ piece.now)) }
        // one that is takes as many bytes of it as are told, at most all
        ensures failed { IsErrOf result PutFault.Failed →
            (taken : ℕ) × (taken_at self.old.fail (next_call self.old.calls) ≡ Some taken)
            × (self.new.text ≡ self.old.text ++ take taken piece.now) }
        ensures no_memory { IsErrOf result PutFault.NoMemory → self.new.text ≡ self.old.text }
        ensures called { self.new.calls ≡ next_call self.old.calls }
        ensures counted { IsCounted self.old.faults self.new.faults (IsErrOf result PutFault.Failed) }
        ensures fail { self.new.fail ≡ self.old.fail }
        ensures appended { (text : List ℕ) × Appended (Some self.old.text) (Some self.new.text) text
            × IsPut piece.now result text }
        ensures cause { HasCause self.old.faults self.new.faults (IsErrOf result PutFault.Failed) }
    {
        self.calls = self.calls.saturating_add(1);
        let told = taken(self.fail.as_slice(), self.calls);
        let count = told.unwrap_or(u64::MAX).min(piece.len() as u64) as usize;
        if self.text.extend_from_slice(&piece[..count]).is_err() {
            return Err(PutFault::NoMemory);
        }
        if told.is_some() {
            self.faults = self.faults.saturating_add(1);
            return Err(PutFault::Failed);
        }
        Ok(())
    }

    fn flush(&mut self) -> Result<(), PutFault>
        ensures done { result ≡ Ok tt }
        ensures same { self.new ≡ self.old }
    {
        Ok(())
    }
}
