ghost use Rattle.std.specs.Prelude.{◌≡◌, IfSome};
ghost use Rattle.std.specs.Option.{option_map};
ghost use Rattle.map_defs.specs.RuleNames.{merge_name, split_name, table_merge, table_split};
ghost use Rattle.attr_rules.specs.Tables.{merge_of, split_of};

use crate::name::RuleName;
use std::marker::Model;

/// How two values become one: by a row of the table, or by a rule that a caller hands in under a name.
#[derive(Clone, Copy, Debug, PartialEq, Eq)]
pub enum Merge {
    /// The first of the two.
    First,
    /// The second of the two.
    Last,
    /// The sum of each number, held within `i64`.
    Sum,
    /// The lesser of each number.
    Min,
    /// The greater of each number.
    Max,
    /// The floor of half of the sum of each number.
    Mid,
    /// What the hook does.
    Host,
    /// What the hook's rule of this name does; the first of the two, if the hook knows no such rule.
    Named(RuleName),
}

/// How a value goes to the pieces of its cell: by a row of the table, or by a rule that a caller hands in under a name.
#[derive(Clone, Copy, Debug, PartialEq, Eq)]
pub enum Split {
    /// Each piece gets the value.
    Copied,
    /// The first piece gets the value, the others get nothing.
    Keep,
    /// Each number is dealt out among the pieces; the first pieces get one more where it does not come out even.
    Share,
    /// What the hook does.
    Host,
    /// What the hook's rule of this name does; each piece gets the value, if the hook knows no such rule.
    Named(RuleName),
}

/// A rule. A merge and a split may be put together freely.
#[derive(Clone, Copy, Debug, PartialEq, Eq)]
pub struct TableRule {
    pub merge: Merge,
    pub split: Split,
}

impl Model for TableRule {
    ghost use Rattle.std.specs.Prelude.{◌≡◌};
    ghost use Rattle.map_defs.specs.Values as values;
    ghost use Rattle.attr_rules.specs.Tables.{merge_of, split_of, merge_back, split_back, merge_back-merge_of, split_back-split_of};

    ghost Value = { values.Rule };

    ghost view = { λ rule. record { merge = merge_of rule.merge; split = split_of rule.split } };

    ghost inverse = { λ rule. record { merge = merge_back rule.merge; split = split_back rule.split } };

    ghost inverse_ok = { λ a h i. record { merge = merge_back-merge_of a.merge i; split = split_back-split_of a.split i } };
}

impl Merge {
    /// The merge's name: `first`, `last`, `sum`, `min`, `max`, `mid` or `host`, or that of a named one.
    pub fn name(&self) -> &str
        ensures { result.now ≡ merge_name (merge_of self.now) }
    {
        match self {
            Merge::First => "first",
            Merge::Last => "last",
            Merge::Sum => "sum",
            Merge::Min => "min",
            Merge::Max => "max",
            Merge::Mid => "mid",
            Merge::Host => "host",
            Merge::Named(name) => name.as_str(),
        }
    }
}

impl Split {
    /// The split's name: `copy`, `keep`, `share` or `host`, or that of a named one.
    pub fn name(&self) -> &str
        ensures { result.now ≡ split_name (split_of self.now) }
    {
        match self {
            Split::Copied => "copy",
            Split::Keep => "keep",
            Split::Share => "share",
            Split::Host => "host",
            Split::Named(name) => name.as_str(),
        }
    }
}

/// The merge of the table that has this name; none exactly where none of them has it.
pub fn merge_named(name: &str) -> Option<Merge>
    ensures merge { option_map merge_of result ≡ table_merge name.now }
    ensures name { IfSome result (λ merge. name.now ≡ merge_name (merge_of merge)) }
{
    match name {
        "first" => Some(Merge::First),
        "last" => Some(Merge::Last),
        "sum" => Some(Merge::Sum),
        "min" => Some(Merge::Min),
        "max" => Some(Merge::Max),
        "mid" => Some(Merge::Mid),
        "host" => Some(Merge::Host),
        _ => None,
    }
}

/// The split of the table that has this name; none exactly where none of them has it.
pub fn split_named(name: &str) -> Option<Split>
    ensures split { option_map split_of result ≡ table_split name.now }
    ensures name { IfSome result (λ split. name.now ≡ split_name (split_of split)) }
{
    match name {
        "copy" => Some(Split::Copied),
        "keep" => Some(Split::Keep),
        "share" => Some(Split::Share),
        "host" => Some(Split::Host),
        _ => None,
    }
}
