use crate::rule_change::RuleChange;
use crate::value_change::ValueChange;
use link_rows::PlainEdit;
use std::marker::Model;

/// What one step changed: the number of its first new dart, or 0 where no dart was born; the edit of the links; and the
/// values and rules that differ.
#[derive(Drop)]
pub struct Step {
    pub first: u32,
    pub edit: PlainEdit,
    pub values: Vec<ValueChange>,
    pub rules: Vec<RuleChange>,
}

impl Model for Step {
    ghost use Rattle.machine_defs.specs.Difference.{Difference};

    ghost Value = { Difference };

    ghost view = { λ step. record { first = step.first; edit = step.edit; values = step.values.items; rules = step.rules.items } };
}
