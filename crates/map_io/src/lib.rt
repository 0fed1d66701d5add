//! The outside: a [`Shelf`] from which files are fetched, and a [`Sink`] to which text is put.
//!
//! A program that reads and writes through these two traits can be said to write the right text: over a shelf that
//! tells what it holds and a sink that tells what was written. Over real files and the standard output, which tell
//! nothing, what is said of its status stays.
#![tactic(auto)]

mod device;
pub mod file_shelf;
pub mod memory;
pub mod shelf;
pub mod sink;
pub mod sure;
pub mod writer_sink;

pub use file_shelf::FileShelf;
pub use memory::{MemShelf, MemSink, SinkFail};
pub use shelf::{FetchFault, Shelf};
pub use sink::{PutFault, Sink};
pub use sure::{Held, SureShelf, SureSink};
pub use writer_sink::{StdSink, WriterSink};
