//! The definitions of what the machine and the program do: states, lines and their words, replies and texts, marks, loading,
//! the machine, and the answer of the program. There is no code here: `specs/` is to be read.
#![tactic(auto)]
