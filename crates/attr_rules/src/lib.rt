//! How values merge and split: the tables of rules, and the rules that a caller hands in beside them.
#![tactic(auto)]

mod hooked;
mod name;
mod named;
mod numbers;
mod rule;
mod table;

pub use hooked::{HookName, Hooked, OrCopy};
pub use name::RuleName;
pub use named::{is_free_name, merge_beside, merge_listed, split_beside, split_listed};
pub use numbers::dealt;
pub use rule::{Hook, Rule, RuleWith};
pub use table::{Merge, Split, TableRule, merge_named, split_named};
