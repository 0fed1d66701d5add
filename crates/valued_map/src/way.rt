//! The two ways through steps: back, as an undo goes, and forth, as a redo does.
ghost use Rattle.std.specs.Prelude.{◌≡◌, ◌<◌};
ghost use Rattle.valued_map.specs.Ways.{place_at, value_put, rule_put, other_way};

use attr_rules::TableRule;
use map_kind::Value;
use undo_journal::{RuleChange, ValueChange};

/// A way through steps.
#[derive(Clone, Copy)]
pub(crate) enum Way {
    /// Steps are taken back, the last first.
    Back,
    /// Steps are put forward, the first first.
    Forth,
}

impl Way {
    /// The way that leads back again.
    pub(crate) fn turned(self) -> Way
        ensures { result ≡ other_way self }
    {
        match self {
            Way::Back => Way::Forth,
            Way::Forth => Way::Back,
        }
    }

    /// Which of `count` steps or changes comes after so many others.
    pub(crate) fn place(self, passed: usize, count: usize) -> usize
        requires { passed < count }
        ensures within { result < count }
        ensures place { result ≡ place_at self passed count }
    {
        match self {
            Way::Back => count - 1 - passed,
            Way::Forth => passed,
        }
    }

    /// The value that a change puts at its dart.
    pub(crate) fn value(self, value: ValueChange) -> Option<Value>
        ensures { result ≡ value_put self value }
    {
        match self {
            Way::Back => value.old,
            Way::Forth => value.new,
        }
    }

    /// The rule that a change puts in its dimension.
    pub(crate) fn rule(self, rule: RuleChange) -> Option<TableRule>
        ensures { result ≡ rule_put self rule }
    {
        match self {
            Way::Back => rule.old,
            Way::Forth => rule.new,
        }
    }
}
