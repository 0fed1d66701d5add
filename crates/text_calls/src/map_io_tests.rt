//! What no clause says: that a call succeeds where memory is there, and what the system itself does.
ghost use Rattle.std.specs.Prelude.{◌≡◌, IfOk};
ghost use Rattle.map_io.specs.Held.{file_of};

use map_io::{
    FetchFault, FileShelf, Held, MemShelf, MemSink, PutFault, Shelf, Sink, SinkFail, StdSink,
    SureShelf, SureSink, WriterSink,
};
use std::alloc::{AllocError, Allocator, Global};
use std::fs::{self, Metadata, OpenFile, OpenOptions};
use std::io::{self, ErrorKind, Read, Seek, SeekFrom, Write};
use std::rt::Files;
use std::test::Fail;

fn held(alloc: Global, name: &str, bytes: &[u8]) -> Result<Held, AllocError>
    ensures { IfOk result (λ file. file_of file ≡ (name.now, bytes.now)) }
{
    Ok(Held {
        name: String::from_str(alloc, name)?,
        bytes: bytes.to_vec(alloc)?,
    })
}

#[test]
fn a_sure_shelf_gives_the_first_file_of_a_name(rt: HostRuntime) -> Result<(), Fail> {
    let alloc = rt.alloc();
    let mut files = Vec::new(alloc);
    files.push(held(alloc, "b", b"other")?)?;
    files.push(held(alloc, "a", b"first")?)?;
    files.push(held(alloc, "a", b"second")?)?;
    let mut shelf = SureShelf::new(files);
    let fetched = shelf.fetch(alloc, "a", 5);
    assert_eq!(rt;
        fetched.ok().ok_or("no file")?.as_slice(),
        b"first".as_slice()
    );
    let fetched = shelf.fetch(alloc, "a", 4);
    assert_eq!(rt; fetched.err(), Some(FetchFault::TooLong { seen: 5 }));
    Ok(())
}

#[test]
fn a_sure_sink_tells_what_was_written(rt: HostRuntime) -> Result<(), Fail> {
    let mut sink = SureSink::new(rt.alloc());
    assert_eq!(rt; sink.put(b"ok "), Ok(()));
    assert_eq!(rt; sink.put(b"1\n"), Ok(()));
    assert_eq!(rt; sink.flush(), Ok(()));
    assert_eq!(rt; sink.written(), b"ok 1\n".as_slice());
    Ok(())
}

#[test]
fn a_shelf_fails_where_it_is_told(rt: HostRuntime) -> Result<(), Fail> {
    let alloc = rt.alloc();
    let mut files = Vec::new(alloc);
    files.push(held(alloc, "a", b"first")?)?;
    files.push(held(alloc, "a", b"second")?)?;
    let mut fail = Vec::new(alloc);
    fail.push(2)?;
    let mut shelf = MemShelf::new(files, fail);
    let first = shelf.fetch(alloc, "a", 5);
    let second = shelf.fetch(alloc, "a", 5);
    let third = shelf.fetch(alloc, "a", 4);
    let fourth = shelf.fetch(alloc, "b", 5);
    assert_eq!(rt;
        first.ok().ok_or("no file")?.as_slice(),
        b"first".as_slice()
    );
    assert_eq!(rt; second.err(), Some(FetchFault::Failed));
    assert_eq!(rt; third.err(), Some(FetchFault::TooLong { seen: 5 }));
    assert_eq!(rt; fourth.err(), Some(FetchFault::Failed));
    Ok(())
}

#[test]
fn a_sink_takes_of_a_piece_what_it_is_told(rt: HostRuntime) -> Result<(), Fail> {
    let alloc = rt.alloc();
    let mut fail = Vec::new(alloc);
    fail.push(SinkFail { call: 2, taken: 2 })?;
    fail.push(SinkFail { call: 2, taken: 0 })?;
    fail.push(SinkFail { call: 3, taken: 9 })?;
    let mut sink = MemSink::new(alloc, fail);
    assert_eq!(rt; sink.put(b"ok 1 6\n"), Ok(()));
    assert_eq!(rt; sink.put(b"ok\n"), Err(PutFault::Failed));
    assert_eq!(rt; sink.put(b"no"), Err(PutFault::Failed));
    assert_eq!(rt; sink.flush(), Ok(()));
    assert_eq!(rt; sink.put(b"\n"), Ok(()));
    assert_eq!(rt; sink.written(), b"ok 1 6\nokno\n".as_slice());
    Ok(())
}

const PATH: &str = "map_io_file_shelf_test";

/// More than is read at a time.
const LONG: usize = 200_000;

#[test]
fn a_file_shelf_reads_files_up_to_the_limit(rt: HostRuntime) -> Result<(), Fail> {
    let alloc = rt.alloc();
    let mut bytes = Vec::new(alloc);
    for place in 0..LONG {
        bytes.push((place % 251) as u8)?;
    }
    fs::write(&rt, PATH, bytes.as_slice())?;
    let mut shelf = FileShelf::new(&rt);
    let limit = LONG as u64;
    let whole = shelf.fetch(alloc, PATH, limit);
    let longer = shelf.fetch(alloc, PATH, limit - 1);
    fs::remove_file(&rt, PATH)?;
    let absent = shelf.fetch(alloc, PATH, limit);
    assert!(rt; whole.ok().ok_or("no file")?.as_slice() == bytes.as_slice());
    assert_eq!(rt; longer.err(), Some(FetchFault::TooLong { seen: limit }));
    assert_eq!(rt; absent.err(), Some(FetchFault::Failed));
    Ok(())
}

#[test]
fn a_sink_over_the_standard_output_puts_and_flushes(rt: HostRuntime) -> Result<(), Fail> {
    let mut sink = StdSink::new(rt.alloc(), &rt);
    assert_eq!(rt; sink.put(b"ok 1 6\n"), Ok(()));
    assert_eq!(rt; sink.flush(), Ok(()));
    Ok(())
}

/// A writer that takes a few bytes at a time, and fails where it is full.
#[derive(Drop)]
struct Narrow {
    text: Vec<u8>,
    room: usize,
}

impl Write for Narrow {
    fn write(&mut self, piece: &[u8]) -> io::Result<usize> {
        let count = piece.len().min(self.room).min(3);
        self.text.extend_from_slice(&piece[..count])?;
        self.room -= count;
        Ok(count)
    }

    fn flush(&mut self) -> io::Result<()> {
        Ok(())
    }
}

#[test]
fn a_sink_stops_at_its_first_fault(rt: HostRuntime) -> Result<(), Fail> {
    let alloc = rt.alloc();
    let mut sink = WriterSink::over(
        alloc,
        Narrow {
            text: Vec::new(alloc),
            room: 8,
        },
    );
    assert_eq!(rt; sink.put(b"ok 1 6\n"), Ok(()));
    assert_eq!(rt; sink.flush(), Ok(()));
    assert_eq!(rt; sink.put(b"ok 7 6\n"), Ok(()));
    assert_eq!(rt; sink.flush(), Err(PutFault::Failed));
    assert_eq!(rt; sink.put(b"ok 13 6\n"), Err(PutFault::Failed));
    assert_eq!(rt; sink.flush(), Err(PutFault::Failed));
    assert_eq!(rt; sink.writer().text.as_slice(), b"ok 1 6\no".as_slice());
    Ok(())
}

/// Bytes that are read and written. One call is interrupted, and one fails; the calls after these go well again.
#[derive(Drop)]
struct Fickle {
    text: Vec<u8>,
    calls: u64,
    interrupted: u64,
    failing: u64,
}

impl Fickle {
    /// A stream whose calls of these numbers are interrupted, and fail. The first call is number 1.
    fn new(alloc: Global, interrupted: u64, failing: u64) -> Fickle {
        Fickle {
            text: Vec::new(alloc),
            calls: 0,
            interrupted,
            failing,
        }
    }

    fn call(&mut self) -> io::Result<()> {
        self.calls = self.calls.saturating_add(1);
        if self.calls == self.interrupted {
            return Err(io::Error::from(ErrorKind::Interrupted));
        }
        if self.calls == self.failing {
            return Err(io::Error::from(ErrorKind::BrokenPipe));
        }
        Ok(())
    }
}

impl Read for Fickle {
    fn read(&mut self, chunk: &mut [u8]) -> io::Result<usize> {
        self.call()?;
        Ok(chunk.len().min(2))
    }
}

impl Write for Fickle {
    fn write(&mut self, piece: &[u8]) -> io::Result<usize> {
        self.call()?;
        self.text.extend_from_slice(piece)?;
        Ok(piece.len())
    }

    fn flush(&mut self) -> io::Result<()> {
        self.call()
    }
}

fn unsupported<T>() -> io::Result<T> {
    Err(io::Error::from(ErrorKind::Unsupported))
}

impl Seek for Fickle {
    fn seek(&mut self, _to: SeekFrom) -> io::Result<u64> {
        unsupported()
    }
}

impl OpenFile for Fickle {
    fn metadata(&self) -> io::Result<Metadata> {
        unsupported()
    }

    fn set_len(&self, _size: u64) -> io::Result<()> {
        unsupported()
    }

    fn sync_all(&self) -> io::Result<()> {
        unsupported()
    }

    fn sync_data(&self) -> io::Result<()> {
        unsupported()
    }
}

/// A system whose files are all such streams, and that does nothing but open them.
#[derive(Drop)]
struct FickleFiles {
    alloc: Global,
    interrupted: u64,
    failing: u64,
}

impl Files for FickleFiles {
    type File = Fickle;

    type Dir = Fickle;

    fn open_file(&self, _how: &OpenOptions, _path: &str) -> io::Result<Fickle> {
        Ok(Fickle::new(self.alloc, self.interrupted, self.failing))
    }

    fn open_dir(&self, _path: &str) -> io::Result<Fickle> {
        unsupported()
    }

    fn metadata(&self, _path: &str) -> io::Result<Metadata> {
        unsupported()
    }

    fn symlink_metadata(&self, _path: &str) -> io::Result<Metadata> {
        unsupported()
    }

    fn copy(&self, _from: &str, _to: &str) -> io::Result<u64> {
        unsupported()
    }

    fn rename(&self, _from: &str, _to: &str) -> io::Result<()> {
        unsupported()
    }

    fn remove_file(&self, _path: &str) -> io::Result<()> {
        unsupported()
    }

    fn create_dir(&self, _path: &str) -> io::Result<()> {
        unsupported()
    }

    fn remove_dir(&self, _path: &str) -> io::Result<()> {
        unsupported()
    }

    fn remove_dir_all<B: Allocator>(&self, _alloc: B, _path: &str) -> io::Result<()> {
        unsupported()
    }
}

/// Why a file of such a system is not fetched.
fn fetch_fault(alloc: Global, interrupted: u64, failing: u64) -> Option<FetchFault> {
    let mut shelf = FileShelf::new(FickleFiles {
        alloc,
        interrupted,
        failing,
    });
    shelf.fetch(alloc, PATH, 4).err()
}

// Two bytes come at a time. The first read is interrupted, and the fourth sees the fifth byte, if it does not fail.
#[test]
fn a_read_that_is_interrupted_is_tried_again(rt: HostRuntime) {
    let fault = fetch_fault(rt.alloc(), 1, 5);
    assert_eq!(rt; fault, Some(FetchFault::TooLong { seen: 5 }));
    let fault = fetch_fault(rt.alloc(), 1, 4);
    assert_eq!(rt; fault, Some(FetchFault::Failed));
}

#[test]
fn a_write_that_is_interrupted_is_tried_again(rt: HostRuntime) -> Result<(), Fail> {
    let alloc = rt.alloc();
    let mut sink = WriterSink::over(alloc, Fickle::new(alloc, 1, 4));
    assert_eq!(rt; sink.put(b"ok 1 6\n"), Ok(()));
    assert_eq!(rt; sink.flush(), Ok(()));
    assert_eq!(rt; sink.put(b"ok 7 6\n"), Ok(()));
    assert_eq!(rt; sink.flush(), Err(PutFault::Failed));
    assert_eq!(rt; sink.writer().text.as_slice(), b"ok 1 6\n".as_slice());
    assert_eq!(rt; sink.writer().calls, 4);
    Ok(())
}

#[test]
fn a_flush_that_is_interrupted_is_tried_again(rt: HostRuntime) -> Result<(), Fail> {
    let alloc = rt.alloc();
    let mut sink = WriterSink::over(alloc, Fickle::new(alloc, 1, 3));
    assert_eq!(rt; sink.flush(), Ok(()));
    assert_eq!(rt; sink.flush(), Err(PutFault::Failed));
    assert_eq!(rt; sink.writer().calls, 3);
    Ok(())
}
