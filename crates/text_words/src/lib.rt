//! The words of a line of text, with which scripts, listings and meshes are written: what stands before a comment, cut at
//! blanks, and the numbers and names that words write.
#![tactic(auto)]

mod comment;
mod spelled;
mod word;

pub use comment::without_comment;
pub use spelled::{read_integer, read_name, read_numeral};
pub use word::{are_text, is_digits, is_text, split_words, take_word};
