//! Whether two rules are the same.
ghost use Rattle.std.specs.Prelude.{◌≡◌, ◌↔◌, IsTrue};
ghost use Rattle.attr_rules.specs.Tables.{merge_of, split_of};
ghost use Rattle.valued_map.specs.SameRules.{is_named_merge, is_named_split};

use attr_rules::{Merge, Split, TableRule};

/// Whether two dimensions have the same rule, or both none.
pub(crate) fn same_rule(one: &Option<TableRule>, other: &Option<TableRule>) -> bool
    ensures { IsTrue result ↔ one.now ≡ other.now }
{
    let Some(one) = one else {
        return other.is_none();
    };
    let Some(other) = other else {
        return false;
    };
    same_merge(one.merge, other.merge) && same_split(one.split, other.split)
}

/// Whether two merges are the same: both of the table or both handed in, under one name.
fn same_merge(one: Merge, other: Merge) -> bool
    ensures { IsTrue result ↔ merge_of one ≡ merge_of other }
{
    is_named_merge(one) == is_named_merge(other) && one.name() == other.name()
}

/// Whether two splits are the same: both of the table or both handed in, under one name.
fn same_split(one: Split, other: Split) -> bool
    ensures { IsTrue result ↔ split_of one ≡ split_of other }
{
    is_named_split(one) == is_named_split(other) && one.name() == other.name()
}

fn is_named_merge(merge: Merge) -> bool
    ensures { result ≡ is_named_merge (merge_of merge) }
{
    matches!(merge, Merge::Named(_))
}

fn is_named_split(split: Split) -> bool
    ensures { result ≡ is_named_split (split_of split) }
{
    matches!(split, Split::Named(_))
}
