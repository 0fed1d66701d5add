//! A shelf and a sink in memory, without faults.
ghost use Rattle.std.specs.Prelude.{◌≡◌, ◌≢◌, ℕ, ◌↔◌, ◌-◌, ◌^◌, ◌<◌, ◌≤◌, List, [], Option, Some, IsSome, IfOk, IsErrOf, length, option_map};
ghost use Rattle.machine_defs.specs.Outside.{Files, held};
ghost use Rattle.map_io.specs.Held.{files_of};

use crate::{FetchFault, PutFault, Shelf, Sink};
use std::alloc::Global;

/// A file in memory.
#[derive(Debug, Drop)]
pub struct Held {
    pub name: String,
    pub bytes: Vec<u8>,
}

/// A shelf of files in memory that has no faults.
///
/// A caller may ask only for names that are held. Where a name stands twice, its first bytes are held.
#[derive(Debug, Drop)]
pub struct SureShelf {
    files: Vec<Held>,
}

impl SureShelf {
    /// A shelf that holds these files, and tells them.
    pub fn new(files: Vec<Held>) -> SureShelf
        ensures holds { ⟦<SureShelf as Shelf>⟧.holds result ≡ Some (files_of files.items) }
        ensures asked { (name : List ℕ) →
            ⟦<SureShelf as Shelf>⟧.may_ask result name ↔ IsSome (held (files_of files.items) name) }
        ensures sound { ⟦<SureShelf as Shelf>⟧.faults result ≡ 0 }
    {
        SureShelf { files }
    }
}

impl Shelf for SureShelf {
    ghost holds = { λ shelf. Some (files_of shelf.files.items) };

    ghost faults = { λ _. 0 };

    ghost may_ask = { λ shelf name. IsSome (held (files_of shelf.files.items) name) };

    fn fetch(&mut self, alloc: Global, name: &str, limit: u64) -> Result<Vec<u8>, FetchFault> {
        let Some(bytes) = find(self.files.as_slice(), name) else {
            unreachable!()
        };
        copy_up_to(alloc, bytes, limit)
    }
}

/// A copy of these bytes, if there are at most `limit` of them.
pub(crate) fn copy_up_to(alloc: Global, bytes: &[u8], limit: u64) -> Result<Vec<u8>, FetchFault>
    ensures ok { IfOk result (λ copy. (copy.items ≡ bytes.now) × (length bytes.now ≤ limit)) }
    ensures too_long { (seen : ℕ) → IsErrOf result (FetchFault.TooLong seen) →
        (seen ≡ length bytes.now) × (limit < seen) }
    ensures sound { result ≢ Err FetchFault.Failed }
{
    let length = bytes.len() as u64;
    if length > limit {
        return Err(FetchFault::TooLong { seen: length });
    }
    bytes.to_vec(alloc).map_err(|_| FetchFault::NoMemory)
}

/// The bytes of the first file of this name, if there is one.
pub(crate) fn find<'a>(files: &'a [Held], name: &str) -> Option<&'a [u8]>
    ensures { option_map (λ bytes. bytes.now) result ≡ held (files_of files.now) name.now }
{
    for file in files {
        if file.name.as_str() == name {
            return Some(file.bytes.as_slice());
        }
    }
    None
}

/// A sink in memory that has no faults, and tells what was written.
#[derive(Debug, Drop)]
pub struct SureSink {
    text: Vec<u8>,
}

impl SureSink {
    /// A sink to which nothing was written yet.
    pub fn new(alloc: Global) -> SureSink
        ensures written { ⟦<SureSink as Sink>⟧.written result ≡ Some [] }
        ensures sound { ⟦<SureSink as Sink>⟧.faults result ≡ 0 }
    {
        SureSink {
            text: Vec::new(alloc),
        }
    }

    /// All that was written so far.
    pub fn written(&self) -> &[u8]
        ensures { ⟦<SureSink as Sink>⟧.written self.now ≡ Some result.now }
    {
        self.text.as_slice()
    }

    /// All that was written, where nothing more is to be written.
    pub fn into_written(self) -> Vec<u8>
        ensures { ⟦<SureSink as Sink>⟧.written self ≡ Some result.items }
    {
        let SureSink { text } = self;
        text
    }
}

impl Sink for SureSink {
    ghost written = { λ sink. Some sink.text.items };

    ghost kept_back = { λ _. [] };

    ghost faults = { λ _. 0 };

    fn put(&mut self, piece: &[u8]) -> Result<(), PutFault> {
        self.text
            .extend_from_slice(piece)
            .map_err(|_| PutFault::NoMemory)
    }

    fn flush(&mut self) -> Result<(), PutFault> {
        Ok(())
    }
}
