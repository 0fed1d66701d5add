//! The rules of the dimensions.
ghost use Rattle.std.specs.Prelude.{◌≡◌, ◌==◌, ◌+◌, ◌-◌, ◌≤◌, ◌<◌, ◌↔◌, cond, length, replicate, slice_set, Some, None, IsSome, IsTrue, IfOk, OnOk, OnErr};
ghost use Rattle.map_defs.specs.Rows.{made, live_count};
ghost use Rattle.store_defs.specs.Groups.{rule_at as rule_of};
ghost use Rattle.machine_defs.specs.Machine.{with_rule};
ghost use Rattle.valued_map.specs.Told.{IsOneRule, IsStep};

use crate::map::ValuedMap;
use crate::same::same_rule;
use crate::told::{begin_step, finish_step, no_edit};
use attr_rules::TableRule;
use map_kind::Kind;
use std::alloc::{AllocError, Global};
use transport::RuleRow;
use undo_journal::{RuleChange, Step};

impl<K: Kind, const DIM: usize> ValuedMap<K, DIM> {
    /// Gives a dimension a rule, in place of the one that it had. The values stay. The step is answered where it is asked
    /// for. All memory is taken before anything changes.
    pub fn set_rule(
        &mut self,
        alloc: Global,
        dim: usize,
        rule: TableRule,
        asked: bool,
    ) -> Result<Option<Step>, AllocError>
        requires { dim ≤ DIM }
        ensures set { OnOk result (self.new.content ≡ with_rule self.old.content dim rule) }
        ensures step { IfOk result (λ step. IsStep asked self.old.content self.new.content step) }
        ensures err { OnErr result (self.new.content ≡ self.old.content) }
        ensures places_stay { self.old.places ≤ self.new.places }
        ensures room { OnOk result (live_count self.old.content.rows + (made self.new.content.rows - made self.old.content.rows) ≤ self.new.places) }
    {
        let dimension = self.links.dimension();
        let draft = begin_step(alloc, self.links.made(), &no_edit(alloc), asked)?;
        let changes = rule_changes(alloc, &self.rules, dim, rule, asked)?;
        self.labels.open(dim)?;
        make_places(alloc, &mut self.rules, dimension + 1)?;
        put_rule(&mut self.rules, dim, rule);
        Ok(finish_step(draft, Vec::new(alloc), changes))
    }
}

/// The change of the rule of a dimension to this one, unless it has it.
fn rule_changes(
    alloc: Global,
    rules: &RuleRow,
    dim: usize,
    rule: TableRule,
    asked: bool,
) -> Result<Vec<RuleChange>, AllocError>
    ensures { IfOk result (λ changes. IsTrue asked → IsOneRule rules.now dim rule changes.items) }
{
    let old = rule_of(rules, dim);
    if !asked || same_rule(&old, &Some(rule)) {
        return Ok(Vec::new(alloc));
    }
    Ok(vec![in alloc;
        RuleChange {
            dim,
            old,
            new: Some(rule)
        },
    ]?)
}

/// The rule of a dimension, if it has one.
pub(crate) fn rule_of(rules: &RuleRow, dim: usize) -> Option<TableRule>
    ensures { result ≡ rule_of rules.now dim }
{
    match rules.rules.get(dim) {
        Some(rule) => *rule,
        None => None,
    }
}

/// Whether a dimension has a rule.
pub(crate) fn has_rule(rules: &RuleRow, dim: usize) -> bool
    ensures { IsTrue result ↔ IsSome (rule_of rules.now dim) }
{
    match rules.rules.get(dim) {
        Some(rule) => rule.is_some(),
        None => false,
    }
}

/// Whether there are places for rules.
pub(crate) fn has_places(rules: &RuleRow) -> bool
    ensures { IsTrue result ↔ (0 < length rules.now) }
{
    !rules.rules.is_empty()
}

/// Gives a dimension a rule.
pub(crate) fn put_rule(rules: &mut RuleRow, dim: usize, rule: TableRule)
    requires { dim < length rules.old }
    ensures { rules.new ≡ slice_set rules.old dim (Some rule) }
{
    rules.rules[dim] = Some(rule);
}

/// Makes a place for the rule of each dimension, if there are none.
pub(crate) fn make_places(
    alloc: Global,
    rules: &mut RuleRow,
    places: usize,
) -> Result<(), AllocError>
    ensures made { OnOk result (rules.new ≡ cond (length rules.old == 0) (replicate places None) rules.old) }
    ensures err { OnErr result (rules.new ≡ rules.old) }
{
    if rules.rules.is_empty() {
        rules.rules = vec![in alloc; None; places]?;
    }
    Ok(())
}
