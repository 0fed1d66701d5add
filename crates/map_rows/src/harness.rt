//! Runs the program over files and a sink in memory.
ghost use Rattle.std.specs.Prelude.{◌≡◌, ℕ, List, map, string_bytes, IfOk, IsSome};
ghost use Rattle.machine_defs.specs.Outside.{held};
ghost use Rattle.machine_defs.specs.Program.{NeedsFile};
ghost use Rattle.map_io.specs.Held.{files_of};

use attr_rules::OrCopy;
use hook_book::{Book, Named, Span, Xor};
use map_io::{Held, MemShelf, MemSink, SinkFail, SureShelf, SureSink};
use std::alloc::{AllocError, Global};
use std::process::Abort;

/// A script, what the program writes for it, and its status.
pub struct Row {
    pub script: &'static str,
    pub text: &'static str,
    pub status: u8,
}

/// What the program wrote, and its status.
#[derive(Drop)]
pub struct Answer {
    pub text: Vec<u8>,
    pub status: u8,
}

/// Runs the program on words, over files that hold all that the words need, with the rules `xor` and `span` handed in.
pub fn run_over(alloc: Global, words: &[String], files: Vec<Held>) -> Result<Answer, AllocError>
    requires { (name : List ℕ) → NeedsFile (map string_bytes words.now) name
        → IsSome (held (files_of files.items) name) }
{
    let mut shelf = SureShelf::new(files);
    let mut out = SureSink::new(alloc);
    let mut hooks: Vec<Box<dyn Named>> = Vec::new(alloc);
    hooks.push(Box::new(alloc, Xor)?)?;
    hooks.push(Box::new(alloc, Span)?)?;
    let status = match Book::new(OrCopy, hooks) {
        Ok(book) => map_run::run(alloc, words, &mut shelf, &mut out, &book),
        Err(fault) => map_run::run(alloc, words, &mut shelf, &mut out, &fault.base),
    };
    let text = out.written().to_vec(alloc)?;
    Ok(Answer { text, status })
}

/// Runs the program on words, over files of these names and bytes, where the fetches of these numbers fail, and these puts.
pub fn run_failing(
    alloc: Global,
    words: &[&str],
    files: &[(&str, &[u8])],
    fetches: &[u64],
    puts: &[SinkFail],
) -> Result<Answer, AllocError> {
    let mut owned = Vec::new(alloc);
    for word in words {
        owned.push(word.to_string(alloc)?)?;
    }
    let mut held = Vec::new(alloc);
    for (name, bytes) in files {
        held.push(Held {
            name: name.to_string(alloc)?,
            bytes: bytes.to_vec(alloc)?,
        })?;
    }
    let mut shelf = MemShelf::new(held, fetches.to_vec(alloc)?);
    let mut out = MemSink::new(alloc, puts.to_vec(alloc)?);
    let status = map_run::run(alloc, owned.as_slice(), &mut shelf, &mut out, &OrCopy);
    let text = out.written().to_vec(alloc)?;
    Ok(Answer { text, status })
}

fn text(alloc: Global, word: &str) -> Result<String, AllocError>
    ensures { IfOk result (λ text. string_bytes text ≡ word.now) }
{
    String::from_str(alloc, word)
}

/// Runs `run KIND DIM - s`, where the file `s` has these bytes.
pub fn obey(alloc: Global, kind: &str, dim: &str, script: Vec<u8>) -> Result<Answer, AllocError> {
    let mut words = Vec::new(alloc);
    words.push(text(alloc, "run")?)?;
    words.push(text(alloc, kind)?)?;
    words.push(text(alloc, dim)?)?;
    words.push(text(alloc, "-")?)?;
    words.push(text(alloc, "s")?)?;
    let mut files = Vec::new(alloc);
    files.push(Held {
        name: text(alloc, "s")?,
        bytes: script,
    })?;
    run_over(alloc, words.as_slice(), files)
}

/// Runs `audit x`, where the file `x` has these bytes.
pub fn audit(alloc: Global, listing: Vec<u8>) -> Result<Answer, AllocError> {
    run_listing(alloc, "audit", listing)
}

/// Runs `half x`, where the file `x` has these bytes.
pub fn half(alloc: Global, listing: Vec<u8>) -> Result<Answer, AllocError> {
    run_listing(alloc, "half", listing)
}

/// Runs a command of one file `x`, which has these bytes.
fn run_listing(alloc: Global, command: &str, listing: Vec<u8>) -> Result<Answer, AllocError> {
    let mut words = Vec::new(alloc);
    words.push(text(alloc, command)?)?;
    words.push(text(alloc, "x")?)?;
    let mut files = Vec::new(alloc);
    files.push(Held {
        name: text(alloc, "x")?,
        bytes: listing,
    })?;
    run_over(alloc, words.as_slice(), files)
}

/// Runs `soak KIND SEED COUNT`.
pub fn soak(alloc: Global, kind: &str, seed: &str, count: &str) -> Result<Answer, AllocError> {
    let mut words = Vec::new(alloc);
    words.push(text(alloc, "soak")?)?;
    words.push(text(alloc, kind)?)?;
    words.push(text(alloc, seed)?)?;
    words.push(text(alloc, count)?)?;
    run_over(alloc, words.as_slice(), Vec::new(alloc))
}

/// Runs each row's script over a map of a kind and a dimension, and compares the text and the status.
pub fn check_rows(
    rt: &impl Abort,
    alloc: Global,
    kind: &str,
    dim: &str,
    rows: &[Row],
) -> Result<(), AllocError> {
    for row in rows {
        let script = Vec::from_slice(alloc, row.script.as_bytes())?;
        let answer = obey(alloc, kind, dim, script)?;
        assert_eq!(rt;
            answer.text.as_slice(),
            row.text.as_bytes(),
            "{}",
            row.script
        );
        assert_eq!(rt; answer.status, row.status, "{}", row.script);
    }
    Ok(())
}
