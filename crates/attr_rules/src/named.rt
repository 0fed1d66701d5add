//! The rules that words name: rows of the tables, and rules that a hook knows.
ghost use Rattle.std.specs.Prelude.{◌≡◌, ◌↔◌, IsTrue};
ghost use Rattle.std.specs.Option.{option_map};
ghost use Rattle.map_defs.specs.RuleNames.{known_name, named_merge, named_split, listed_merge, listed_split, IsFreeName};
ghost use Rattle.machine_defs.specs.Script.{name};
ghost use Rattle.attr_rules.specs.Tables.{merge_of, split_of};

use crate::name::RuleName;
use crate::rule::Hook;
use crate::table::{Merge, Split, merge_named, split_named};

/// The merge that a word names beside a hook: that of the table, or else a rule that the hook knows; none exactly where it
/// names neither.
pub fn merge_beside<H: Hook>(hook: &H, name: &str) -> Option<Merge>
    requires { H.ready hook.now }
    ensures { option_map merge_of result ≡ named_merge (H.hook hook.now).names name.now }
{
    match merge_named(name) {
        Some(merge) => Some(merge),
        None => Some(Merge::Named(known_name(hook, name)?)),
    }
}

/// The split that a word names beside a hook: that of the table, or else a rule that the hook knows; none exactly where it
/// names neither.
pub fn split_beside<H: Hook>(hook: &H, name: &str) -> Option<Split>
    requires { H.ready hook.now }
    ensures { option_map split_of result ≡ named_split (H.hook hook.now).names name.now }
{
    match split_named(name) {
        Some(split) => Some(split),
        None => Some(Split::Named(known_name(hook, name)?)),
    }
}

/// The name, if the hook knows a rule of this name.
fn known_name<H: Hook>(hook: &H, name: &str) -> Option<RuleName>
    requires { H.ready hook.now }
    ensures { result ≡ known_name (H.hook hook.now).names name.now }
{
    if hook.knows(name) {
        RuleName::new(name)
    } else {
        None
    }
}

/// The merge that a word of a listing names, whatever hook knows it: that of the table, or else a named one; none exactly
/// where the word is no name.
pub fn merge_listed(text: &str) -> Option<Merge>
    ensures { option_map merge_of result ≡ option_map listed_merge (name text.now) }
{
    match merge_named(text) {
        Some(merge) => Some(merge),
        None => Some(Merge::Named(RuleName::new(text)?)),
    }
}

/// The split that a word of a listing names, whatever hook knows it: that of the table, or else a named one; none exactly
/// where the word is no name.
pub fn split_listed(text: &str) -> Option<Split>
    ensures { option_map split_of result ≡ option_map listed_split (name text.now) }
{
    match split_named(text) {
        Some(split) => Some(split),
        None => Some(Split::Named(RuleName::new(text)?)),
    }
}

/// Whether a caller may give a rule this name: it is a name, and stands in neither table.
pub fn is_free_name(text: &str) -> bool
    ensures { IsTrue result ↔ IsFreeName text.now }
{
    RuleName::new(text).is_some() && merge_named(text).is_none() && split_named(text).is_none()
}
