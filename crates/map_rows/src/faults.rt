//! Words that are no command, and what fails outside.
ghost use Rattle.std.specs.Prelude.{◌≡◌, ℕ, ◌+◌, ◌-◌, ◌^◌, [], None, min};

use crate::audits::TRIANGLE_LISTING;
use crate::harness::run_failing;
use crate::meshes::TRIANGLE;
use attr_rules::OrCopy;
use map_io::{Held, MemShelf, PutFault, Sink, SinkFail};
use std::alloc::AllocError;

/// Words that are no command: none, an unknown one, one too few, one too many, an unknown kind, dimensions below and above
/// those offered, and a dimension with a leading zero; an audit of nothing, and of two listings.
const NO_COMMANDS: [&[&str]; 11] = [
    &[],
    &["fly"],
    &["audit"],
    &["audits", "x"],
    &["audit", "x", "x"],
    &["run", "g", "2", "-"],
    &["run", "g", "2", "-", "s", "s"],
    &["run", "gc", "2", "-", "s"],
    &["run", "g", "1", "-", "s"],
    &["run", "g", "5", "-", "s"],
    &["run", "g", "02", "-", "s"],
];

#[test]
fn words_that_are_no_command(rt: HostRuntime) -> Result<(), AllocError> {
    for words in &NO_COMMANDS {
        let answer = run_failing(rt.alloc(), words, &[], &[], &[])?;
        assert_eq!(rt; answer.text.as_slice(), b"usage\n".as_slice());
        assert_eq!(rt; answer.status, 2);
    }
    Ok(())
}

/// The fetches and the puts that fail, what is written nevertheless, and the status.
struct Failure {
    words: &'static [&'static str],
    fetches: &'static [u64],
    puts: &'static [SinkFail],
    text: &'static str,
    status: u8,
}

const FAILURES: [Failure; 15] = [
    // a reply that is not taken, not even its first byte
    Failure {
        words: &["run", "g", "2", "-", "s"],
        fetches: &[],
        puts: &[SinkFail { call: 3, taken: 0 }],
        text: "ok 1 6\nok 7 1\n",
        status: 6,
    },
    // all of a reply but its line feed
    Failure {
        words: &["run", "g", "2", "-", "s"],
        fetches: &[],
        puts: &[SinkFail { call: 3, taken: 2 }],
        text: "ok 1 6\nok 7 1\nok",
        status: 6,
    },
    // a put that does not come
    Failure {
        words: &["run", "g", "2", "-", "s"],
        fetches: &[],
        puts: &[SinkFail { call: 5, taken: 0 }],
        text: "ok 1 6\nok 7 1\nok 8 1\nok 9 1\n",
        status: 0,
    },
    // the mesh, the script, and a mesh that is not there
    Failure {
        words: &["run", "g", "2", "tri.off", "s"],
        fetches: &[1],
        puts: &[],
        text: "cannot read\n",
        status: 5,
    },
    Failure {
        words: &["run", "g", "2", "tri.off", "s"],
        fetches: &[2],
        puts: &[],
        text: "cannot read\n",
        status: 5,
    },
    Failure {
        words: &["run", "g", "2", "absent", "s"],
        fetches: &[],
        puts: &[],
        text: "cannot read\n",
        status: 5,
    },
    // a listing, and then what says so
    Failure {
        words: &["audit", "tri.lst"],
        fetches: &[1],
        puts: &[SinkFail { call: 1, taken: 3 }],
        text: "can",
        status: 6,
    },
    // what says that the words are no command
    Failure {
        words: &["fly"],
        fetches: &[],
        puts: &[SinkFail { call: 1, taken: 0 }],
        text: "",
        status: 6,
    },
    // a script, and then what says so
    Failure {
        words: &["run", "g", "2", "-", "absent"],
        fetches: &[],
        puts: &[SinkFail { call: 1, taken: 0 }],
        text: "",
        status: 6,
    },
    // a listing of the map within its second line
    Failure {
        words: &["run", "g", "2", "-", "show"],
        fetches: &[],
        puts: &[SinkFail { call: 3, taken: 4 }],
        text: "ok 1 6\ncellmap 2 g 2 6 6\n1: 2",
        status: 6,
    },
    // a fetch that does not come
    Failure {
        words: &["run", "g", "2", "-", "show"],
        fetches: &[2],
        puts: &[SinkFail { call: 10, taken: 0 }],
        text: "ok 1 6\ncellmap 2 g 2 6 6\n1: 2 6 0\n2: 1 3 0\n3: 4 2 0\n4: 3 5 0\n5: 6 4 0\n6: 5 1 0\nend\n",
        status: 0,
    },
    // a listing that is not there, one that is refused, and one whose counts cannot be written
    Failure {
        words: &["audit", "absent"],
        fetches: &[],
        puts: &[],
        text: "cannot read\n",
        status: 5,
    },
    Failure {
        words: &["audit", "s"],
        fetches: &[],
        puts: &[],
        text: "listing line 1 Form\n",
        status: 3,
    },
    Failure {
        words: &["audit", "dart.lst"],
        fetches: &[],
        puts: &[SinkFail { call: 4, taken: 0 }],
        text: "cellmap 2 g 2 1 1\n1: 0 0 0\nend\n",
        status: 6,
    },
    // a mesh that is refused, which cannot be said
    Failure {
        words: &["run", "g", "2", "s", "s"],
        fetches: &[],
        puts: &[SinkFail { call: 1, taken: 0 }],
        text: "",
        status: 6,
    },
];

#[test]
fn what_fails_outside(rt: HostRuntime) -> Result<(), AllocError> {
    let files = [
        ("s", b"polygon 3\ndart\ndart\ndart\n".as_slice()),
        ("show", b"polygon 3\nshow\n".as_slice()),
        ("tri.off", TRIANGLE.as_bytes()),
        ("tri.lst", TRIANGLE_LISTING.as_bytes()),
        ("dart.lst", b"cellmap 1 g 2 1 1\n1: 0 0 0\nend\n".as_slice()),
    ];
    for row in &FAILURES {
        let answer = run_failing(rt.alloc(), row.words, &files, row.fetches, row.puts)?;
        assert_eq!(rt; answer.text.as_slice(), row.text.as_bytes());
        assert_eq!(rt; answer.status, row.status, "{}", row.text);
    }
    Ok(())
}

/// A sink that takes what is put, and fails at each flush.
#[derive(Drop)]
struct Unflushed {
    text: Vec<u8>,
    faults: u64,
}

impl Sink for Unflushed {
    ghost written = { λ _. None };

    ghost kept_back = { λ _. [] };

    ghost faults = { λ sink. sink.faults };

    fn put(&mut self, piece: &[u8]) -> Result<(), PutFault> {
        match self.text.extend_from_slice(piece) {
            Ok(()) => Ok(()),
            Err(_) => Err(PutFault::NoMemory),
        }
    }

    fn flush(&mut self) -> Result<(), PutFault> {
        self.faults = self.faults.saturating_add(1);
        Err(PutFault::Failed)
    }
}

#[test]
fn what_is_not_handed_on(rt: HostRuntime) -> Result<(), AllocError> {
    let alloc = rt.alloc();
    let mut words = Vec::new(alloc);
    for word in ["run", "g", "2", "-", "s"] {
        words.push(word.to_string(alloc)?)?;
    }
    let mut files = Vec::new(alloc);
    files.push(Held {
        name: "s".to_string(alloc)?,
        bytes: b"polygon 3\n".to_vec(alloc)?,
    })?;
    let mut shelf = MemShelf::new(files, Vec::new(alloc));
    let mut out = Unflushed {
        text: Vec::new(alloc),
        faults: 0,
    };
    let status = map_run::run(alloc, words.as_slice(), &mut shelf, &mut out, &OrCopy);
    assert_eq!(rt; out.text.as_slice(), b"ok 1 6\n".as_slice());
    assert_eq!(rt; status, 6);
    Ok(())
}
