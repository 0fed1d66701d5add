//! The program `cellmap`: it obeys a script over a map, audits, halves or doubles the map of a listing, or obeys the lines of a soak,
//! and writes what answers that to standard output.
//!
//! All that it does is the call of `map_run::run`, over the files of the system and the standard output, with the rules that
//! it hands in: `host` is two closures, and `xor` and `span` are boxed. The exit status is the one that this call answers.
#![tactic(auto)]

use attr_rules::{Hooked, OrCopy};
use hook_book::{Book, Named, Span, Xor};
use map_io::{FileShelf, StdSink};
use map_kind::Value;
use std::alloc::AllocError;
use std::env;
use std::io::ErrorKind;
use std::process::ExitCode;
use std::rt::Env;

/// The status where there is no memory for the words themselves, or for the rules.
const NO_MEMORY: u8 = 7;

/// The program's words, its own name left out; none where one of them is not UTF-8, which is no command.
fn words(rt: &(impl Env + AllocGlobal)) -> Result<Vec<String>, AllocError> {
    let mut words = Vec::new(rt.alloc());
    match env::args(rt) {
        Ok(args) => {
            for word in args.skip(1) {
                words.push(word)?;
            }
            Ok(words)
        }
        Err(error) if error.kind() == ErrorKind::OutOfMemory => Err(AllocError),
        Err(_) => Ok(words),
    }
}

/// Answers the words with the rules that this program hands in. Were a book of them refused, `host` alone would be handed in.
fn status(rt: HostRuntime, words: &[String]) -> Result<u8, AllocError> {
    let alloc = rt.alloc();
    let mut shelf = FileShelf::new(&rt);
    let mut out = StdSink::new(alloc, &rt);
    let host = Hooked::<OrCopy, _, _>::new(
        |x: Value, y: Value| {
            Value {
                a: x.a | y.a,
                b: x.b | y.b,
                c: x.c | y.c,
            }
        },
        |value: Value, _pieces: u32, _piece: u32| Some(value),
    );
    let mut hooks: Vec<Box<dyn Named>> = Vec::new(alloc);
    hooks.push(Box::new(alloc, Xor)?)?;
    hooks.push(Box::new(alloc, Span)?)?;
    Ok(match Book::new(host, hooks) {
        Ok(book) => map_run::run(alloc, words, &mut shelf, &mut out, &book),
        Err(fault) => map_run::run(alloc, words, &mut shelf, &mut out, &fault.base),
    })
}

fn main(rt: HostRuntime) -> ExitCode {
    let Ok(words) = words(&rt) else {
        return ExitCode::from(NO_MEMORY);
    };
    ExitCode::from(status(rt, words.as_slice()).unwrap_or(NO_MEMORY))
}
