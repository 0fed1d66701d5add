//! The journal of a map: what each step changed, the marks that an undo goes back to, and the undos that can be taken back.
#![tactic(auto)]

mod ahead;
mod journal;
mod marks;
mod rule_change;
mod step;
mod value_change;

pub use journal::Journal;
pub use rule_change::RuleChange;
pub use step::Step;
pub use value_change::ValueChange;
