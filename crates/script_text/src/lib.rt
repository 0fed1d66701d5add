//! The text of scripts: what a line tells, the reply to it, and logs.
#![tactic(auto)]

mod done_line;
mod front;
mod line;
mod log;
mod log_line;
mod numbers;
mod read;
mod reply;

pub use line::{Change, Line, Question};
pub use log::{log_text, put_log};
pub use log_line::LogLine;
pub use read::read_line;
pub use reply::{Reply, reply_text};
