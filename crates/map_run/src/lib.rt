//! The program: it runs a script over a map and writes the replies of the plain map machine, audits a listing, tells the half
//! of one, or obeys lines that a generator makes.
#![tactic(auto)]

mod answer;
mod audit;
mod command;
mod files;
mod half;
mod last;
mod machine;
mod mesh;
mod obey;
mod program;
mod refused;
mod script;
mod soak;

pub use program::run;
