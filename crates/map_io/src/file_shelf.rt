//! A shelf over files that are opened by their names, and so over those of the system.
ghost use Rattle.std.specs.Prelude.{◌≡◌, ◌≢◌, ℕ, ◌⊎◌, ◌++◌, ◌+◌, ◌-◌, ◌^◌, ◌<◌, ◌≤◌, List, None, length, IfOk, IsErrOf};
ghost use Rattle.std.specs.Io.KnownBytes.{Consumes, IsAtEnd};
ghost use Rattle.map_io.specs.Cause.{HasCause, IsCounted};
ghost use Rattle.map_io.specs.Fetched.{IsFetched, IsReadWhole};
ghost use Rattle.map_io.specs.FileShelf.{system_of};

use crate::device::{Opener, Source};
use crate::{FetchFault, Shelf};
use std::alloc::Global;
use std::rt::Files;

/// How many bytes of a file are read at a time, at most.
const CHUNK: usize = 65536;

/// A shelf over the files of the system, by their paths.
///
/// It tells nothing of what it holds, and a caller may ask for any name. Of a file that is too long it reads one byte
/// more than the limit. A file that cannot be opened or read is a fault, and nothing else is. The faults are counted
/// until the count stands at the last number of 64 bits.
#[derive(Drop)]
pub struct FileShelf<R> {
    system: R,
    faults: u64,
}

impl<R: Files> FileShelf<R> {
    /// A shelf over the files that `system` reaches, without faults so far.
    pub fn new(system: R) -> FileShelf<R>
        ensures untold { ⟦<FileShelf<R> as Shelf>⟧.holds result ≡ None }
        ensures asked { (name : List ℕ) → ⟦<FileShelf<R> as Shelf>⟧.may_ask result name }
        ensures sound { ⟦<FileShelf<R> as Shelf>⟧.faults result ≡ 0 }
    {
        FileShelf { system, faults: 0 }
    }
}

impl<S: Opener> FileShelf<S> {
    fn read_file(&self, alloc: Global, name: &str, limit: u64) -> Result<Vec<u8>, FetchFault>
        requires { limit < 2 ^ 64 - 1 }
        ensures bytes { IsFetched (S.files self.now.system) name.now limit result }
        ensures most { (seen : ℕ) → IsErrOf result (FetchFault.TooLong seen) → seen ≡ limit + 1 }
        ensures failed { IsErrOf result FetchFault.Failed →
            S.fails self.now.system name.now ⊎ ((file : S.File) × S.File.failed file) }
        ensures well { result ≢ Err FetchFault.Failed → (file : S.File) × S.File.went_well file }
    {
        match self.system.open_by_name(name) {
            Some(mut file) => read_whole(alloc, &mut file, limit),
            None => Err(FetchFault::Failed),
        }
    }
}

impl<S: Opener> Shelf for FileShelf<S> {
    ghost holds = { λ shelf. S.files shelf.system };

    ghost faults = { λ shelf. shelf.faults };

    ghost may_ask = { λ _ _. Unit {0} };

    fn fetch(&mut self, alloc: Global, name: &str, limit: u64) -> Result<Vec<u8>, FetchFault>
        requires { limit < 2 ^ 64 - 1 }
        ensures bytes { IsFetched (⟦<Self as Shelf>⟧.holds self.old) name.now limit result }
        // of a file that is too long, one byte more than the limit was seen
        ensures most { (seen : ℕ) → IsErrOf result (FetchFault.TooLong seen) → seen ≡ limit + 1 }
        ensures same { ⟦<Self as Shelf>⟧.holds self.new ≡ ⟦<Self as Shelf>⟧.holds self.old }
        ensures cause { HasCause (⟦<Self as Shelf>⟧.faults self.old) (⟦<Self as Shelf>⟧.faults self.new)
            (IsErrOf result FetchFault.Failed) }
        ensures counted { IsCounted (⟦<Self as Shelf>⟧.faults self.old) (⟦<Self as Shelf>⟧.faults self.new)
            (IsErrOf result FetchFault.Failed) }
        // the call fails only where the file does not open or a read of it fails
        ensures failed { IsErrOf result FetchFault.Failed →
            S.fails (system_of self.old) name.now ⊎ ((file : S.File) × S.File.failed file) }
        // any other answer comes only where a file opened and all reads of it went well
        ensures well { result ≢ Err FetchFault.Failed → (file : S.File) × S.File.went_well file }
    {
        match self.read_file(alloc, name, limit) {
            Ok(bytes) => Ok(bytes),
            Err(FetchFault::Failed) => {
                self.faults = self.faults.saturating_add(1);
                Err(FetchFault::Failed)
            }
            Err(fault) => Err(fault),
        }
    }
}

/// The bytes that are left to read, if there are at most `limit` of them. It reads at most one byte more than that.
fn read_whole<F: Source>(alloc: Global, file: &mut F, limit: u64) -> Result<Vec<u8>, FetchFault>
    requires { limit < 2 ^ 64 - 1 }
    ensures bytes { IsReadWhole (F.left file.old) limit result }
    ensures most { (seen : ℕ) → IsErrOf result (FetchFault.TooLong seen) → seen ≡ limit + 1 }
    // whatever the answer, no more than one byte beyond the limit is taken
    ensures taken { (part : List ℕ) × Consumes (F.left file.old) (F.left file.new) part
        × (length part ≤ limit + 1) }
    ensures failed { IsErrOf result FetchFault.Failed → F.failed file.new }
    ensures well { F.went_well file.old → result ≢ Err FetchFault.Failed → F.went_well file.new }
{
    let mut bytes = Vec::new(alloc);
    let mut chunk = [0; CHUNK];
    loop {
        let left = limit - bytes.len() as u64;
        let room = (left + 1).min(CHUNK as u64) as usize;
        let count = append_some(file, &mut chunk[..room], &mut bytes)?;
        if count == 0 {
            return Ok(bytes);
        }
        if bytes.len() as u64 > limit {
            return Err(FetchFault::TooLong {
                seen: bytes.len() as u64,
            });
        }
    }
}

/// Reads once and appends what came, and answers how many bytes came: none only at the end.
fn append_some<F: Source>(
    file: &mut F,
    chunk: &mut [u8],
    bytes: &mut Vec<u8>,
) -> Result<usize, FetchFault>
    requires { 0 < length chunk.old }
    ensures read { (part : List ℕ) × Consumes (F.left file.old) (F.left file.new) part
        × (length part ≤ length chunk.old)
        × IfOk result (λ count. (length part ≡ count)
        × (bytes.new.items ≡ bytes.old.items ++ part)) }
    ensures end { IfOk result (λ count. count ≡ 0 → IsAtEnd (F.left file.new)) }
    ensures fault { (seen : ℕ) → result ≢ Err (FetchFault.TooLong seen) }
    ensures failed { IsErrOf result FetchFault.Failed → F.failed file.new }
    ensures well { F.went_well file.old → result ≢ Err FetchFault.Failed → F.went_well file.new }
{
    let Some(count) = file.read_some(chunk) else {
        return Err(FetchFault::Failed);
    };
    match bytes.extend_from_slice(&chunk[..count]) {
        Ok(()) => Ok(count),
        Err(_) => Err(FetchFault::NoMemory),
    }
}
