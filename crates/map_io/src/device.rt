//! What lies below the shelf and the sink: bytes that are read and written, some at a time, and files that are opened
//! by their names.
//!
//! The standard library says nothing of when a call fails, nor of what file a name has. These traits do, and the shelf
//! and the sink are proved over whatever meets them. Only the few lines over the standard library are left to tests.
ghost use Rattle.std.specs.Prelude.{◌≡◌, ℕ, ◌<◌, ◌≤◌, List, Option, length, take, IfSome, IfNone, OnSome, None};
ghost use Rattle.std.specs.Bool.{OnTrue, OnFalse};
ghost use Rattle.std.specs.Io.KnownBytes.{Appends, Consumes, IsAtEnd, Keeps};
ghost use Rattle.machine_defs.specs.Outside.{Files as FilesHeld};
ghost use Rattle.map_io.specs.Fetched.{IsOpened};

use std::fs;
use std::io::{ErrorKind, Read, Write};
use std::rt::Files;

/// Bytes that are read, some at a time.
pub trait Source {
    /// The bytes that are left to read, if they are told.
    ghost left: { Self → Option (List ℕ) };

    /// The last read failed.
    ghost failed: { Self → Type 0 };

    /// All reads so far went well.
    ghost went_well: { Self → Type 0 };

    /// Reads some of the bytes that are left, and answers how many: none only at the end. None is a failure.
    fn read_some(&mut self, chunk: &mut [u8]) -> Option<usize>
        requires { 0 < length chunk.old }
        ensures read { IfSome result (λ count. (count ≤ length chunk.new)
            × Consumes (left self.old) (left self.new) (take count chunk.new)) }
        ensures end { IfSome result (λ count. count ≡ 0 → IsAtEnd (left self.new)) }
        ensures failed { IfNone result (Keeps (left self.old) (left self.new) × failed self.new) }
        ensures well { went_well self.old → OnSome result (went_well self.new) };
}

/// Something that opens files by their names.
pub trait Opener {
    type File: Source + Drop;

    /// The files that can be opened, if they are told.
    ghost files: { Self → Option FilesHeld };

    /// Opening the file of this name may fail.
    ghost fails: { Self → List ℕ → Type 0 };

    /// Opens the file of this name. None is a failure.
    fn open_by_name(&self, name: &str) -> Option<Self::File>
        ensures opened { IfSome result
            (λ file. IsOpened (files self.now) name.now (Self.File.left file)) }
        ensures well { IfSome result (λ file. Self.File.went_well file) }
        ensures failed { IfNone result (fails self.now name.now) };
}

/// Something that takes bytes, some at a time.
pub trait Target {
    /// The bytes that it took so far, if they are told.
    ghost contents: { Self → Option (List ℕ) };

    /// The last call failed.
    ghost failed: { Self → Type 0 };

    /// All that it took was handed on.
    ghost flushed: { Self → Type 0 };

    /// Takes a front of the text, and answers how many bytes: at least one. None is a failure.
    fn write_some(&mut self, text: &[u8]) -> Option<usize>
        requires { 0 < length text.now }
        ensures written { IfSome result (λ count. (0 < count) × (count ≤ length text.now)
            × Appends (contents self.old) (contents self.new) (take count text.now)) }
        ensures failed { IfNone result
            (Keeps (contents self.old) (contents self.new) × failed self.new) };

    /// Hands on what it took. False is a failure.
    fn hand_over(&mut self) -> bool
        ensures kept { Keeps (contents self.old) (contents self.new) }
        ensures flushed { OnTrue result (flushed self.new) }
        ensures failed { OnFalse result (failed self.new) };
}

impl<F: Read> Source for F {
    ghost left = { F.remaining };

    ghost failed = { λ _. Unit {0} };

    ghost went_well = { λ _. Unit {0} };

    fn read_some(&mut self, chunk: &mut [u8]) -> Option<usize> {
        for _ in 0..u64::MAX {
            match self.read(chunk) {
                Ok(count) => return Some(count),
                Err(error) => {
                    if error.kind() != ErrorKind::Interrupted {
                        return None;
                    }
                }
            }
        }
        None
    }
}

impl<R: Files> Opener for R {
    type File = R::File;

    ghost files = { λ _. None };

    ghost fails = { λ _ _. Unit {0} };

    fn open_by_name(&self, name: &str) -> Option<R::File> {
        fs::open(self, name).ok()
    }
}

impl<W: Write> Target for W {
    ghost contents = { W.contents };

    ghost failed = { λ _. Unit {0} };

    ghost flushed = { λ _. Unit {0} };

    fn write_some(&mut self, text: &[u8]) -> Option<usize> {
        for _ in 0..u64::MAX {
            match self.write(text) {
                Ok(0) => return None,
                Ok(count) => return Some(count),
                Err(error) => {
                    if error.kind() != ErrorKind::Interrupted {
                        return None;
                    }
                }
            }
        }
        None
    }

    fn hand_over(&mut self) -> bool {
        for _ in 0..u64::MAX {
            match self.flush() {
                Ok(()) => return true,
                Err(error) => {
                    if error.kind() != ErrorKind::Interrupted {
                        return false;
                    }
                }
            }
        }
        false
    }
}
