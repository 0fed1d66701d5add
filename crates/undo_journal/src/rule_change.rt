ghost use Rattle.std.specs.Prelude.{◌≡◌};

use attr_rules::TableRule;
use std::marker::Model;

/// A change of the rule of one dimension. `old` and `new` are the rule before and after, and none where the dimension
/// has no rule.
#[derive(Clone, Copy, Debug, PartialEq, Eq)]
pub struct RuleChange {
    pub dim: usize,
    pub old: Option<TableRule>,
    pub new: Option<TableRule>,
}

impl Model for RuleChange {
    ghost use Rattle.machine_defs.specs.Difference as differences;

    ghost Value = { differences.RuleChange };

    ghost view = { λ change. record { dim = change.dim; old = change.old; new = change.new } };

    ghost inverse = { λ change. record { dim = change.dim; old = change.old; new = change.new } };
}
