//! The dual of a map, in which the values and rules go with their cells.
ghost use Rattle.std.specs.Prelude.{◌≡◌, ◌+◌, ◌-◌, ◌≤◌, ◌<◌, [], length, reverse, IfOk, OnOk, OnErr, IsTrue};
ghost use Rattle.map_defs.specs.Rows.{IsLive, links_of, made, live_count};
ghost use Rattle.map_defs.specs.Laws.{Laws};
ghost use Rattle.map_defs.specs.Edits.{Fits, after_edit};
ghost use Rattle.map_defs.specs.Dual.{IsDual, IsDualable};
ghost use Rattle.machine_defs.specs.Dualling.{IsDualOf};
ghost use Rattle.label_laws.specs.Turning.{AreTurned};
ghost use Rattle.store_defs.specs.Groups.{rule_at};
ghost use Rattle.label_laws.specs.Stored.{stored_value};
ghost use Rattle.valued_map.specs.TakingDual.{BecomesDual};
ghost use Rattle.valued_map.specs.Told.{AreDiffering, AreRuleChanges, IsValueAdded, IsRuleAdded, IsPlaceBelow, turned_value, IsStep};

use crate::ids::stored_value;
use crate::map::ValuedMap;
use crate::rules::rule_of;
use crate::same::same_rule;
use crate::told::{begin_step, finish_step};
use attr_pool::{Labels, Pool};
use kind_edit::Edits;
use link_rows::{Edit, MADE_MAX};
use map_kind::{Dart, Kind, Refused};
use std::alloc::{AllocError, Global};
use transport::RuleRow;
use undo_journal::{RuleChange, Step, ValueChange};

impl<K: Edits<DIM>, const DIM: usize> ValuedMap<K, DIM> {
    /// Makes the map its dual: the darts stay, and values and rules go with their cells. `Boundary` comes exactly where the
    /// map has no dual, memory aside. It takes the memory that the kind's own `take_dual` takes, which is none in maps of both
    /// kinds, and costs a few steps for each link of the darts that were made. A refusal leaves the map as it was.
    pub fn take_dual(&mut self, alloc: Global) -> Result<(), Refused>
        ensures becomes { BecomesDual self.old.content self.new.content result }
        ensures err { OnErr result (self.new ≡ self.old) }
    {
        K::take_dual(alloc, &mut self.links)?;
        turn_labels(&mut self.labels);
        turn_rules(&mut self.rules);
        Ok(())
    }
}

impl<K: Kind, const DIM: usize> ValuedMap<K, DIM> {
    /// Makes the dual by an edit that makes the dual of the links. The step is answered where it is asked for. All memory is
    /// taken before anything changes.
    pub fn dual_by(
        &mut self,
        alloc: Global,
        edit: &Edit,
        asked: bool,
    ) -> Result<Option<Step>, AllocError>
        requires births { edit.now.births ≡ 0 }
        requires deaths { edit.now.deaths ≡ [] }
        requires fits { Fits K.kind DIM self.old.content.rows edit.now }
        requires laws { Laws K.kind (links_of (after_edit DIM edit.now self.old.content.rows)) }
        requires dualable { IsDualable K.kind DIM (links_of self.old.content.rows) (IsLive self.old.content.rows) }
        requires dual { IsDual K.kind DIM (links_of self.old.content.rows) (links_of (after_edit DIM edit.now self.old.content.rows)) }
        ensures dual { OnOk result (IsDualOf self.old.content self.new.content) }
        ensures step { IfOk result (λ step. IsStep asked self.old.content self.new.content step) }
        ensures err { OnErr result (self.new.content ≡ self.old.content) }
        ensures places_stay { self.old.places ≤ self.new.places }
        ensures room { OnOk result (live_count self.old.content.rows + (made self.new.content.rows - made self.old.content.rows) ≤ self.new.places) }
    {
        let made = self.links.made();
        let draft = begin_step(alloc, made, edit, asked)?;
        let values = turned_values(alloc, &self.labels, &self.pool, made, asked)?;
        let rules = turned_rule_changes(alloc, &self.rules, asked)?;
        self.links.apply(edit);
        turn_labels(&mut self.labels);
        turn_rules(&mut self.rules);
        Ok(finish_step(draft, values, rules))
    }
}

/// Lets the ids of each dimension go to that of the same cells in the dual. It costs the same for any map.
pub(crate) fn turn_labels<const DIM: usize>(labels: &mut Labels<DIM>)
    requires { DIM ≤ 8 }
    ensures { AreTurned DIM labels.old labels.new }
{
    for dim in 0..(DIM + 1) / 2 {
        labels.swap(dim, DIM - dim);
    }
}

/// Lets the rule of each dimension go to that of the same cells in the dual.
pub(crate) fn turn_rules(rules: &mut RuleRow)
    ensures { rules.new ≡ reverse rules.old }
{
    rules.rules.reverse();
}

/// The values of the darts up to `made` that differ in the dual, in the order of a log, where they are asked for.
fn turned_values<const DIM: usize>(
    alloc: Global,
    labels: &Labels<DIM>,
    pool: &Pool,
    made: u32,
    asked: bool,
) -> Result<Vec<ValueChange>, AllocError>
    requires high { DIM ≤ 8 }
    requires made { made ≤ MADE_MAX }
    ensures { IfOk result (λ values. IsTrue asked → AreDiffering (IsPlaceBelow (DIM + 1) made) (stored_value pool.now labels.now) (turned_value DIM labels.now pool.now) values.items) }
{
    if !asked {
        return Ok(Vec::new(alloc));
    }
    let mut values = Vec::new(alloc);
    for dim in 0..DIM + 1 {
        add_turned_values(labels, pool, dim, made, &mut values)?;
    }
    Ok(values)
}

/// Adds the values of a dimension.
fn add_turned_values<const DIM: usize>(
    labels: &Labels<DIM>,
    pool: &Pool,
    dim: usize,
    made: u32,
    values: &mut Vec<ValueChange>,
) -> Result<(), AllocError>
    requires high { DIM ≤ 8 }
    requires dim { dim ≤ DIM }
    requires made { made ≤ MADE_MAX }
    requires values { AreDiffering (IsPlaceBelow dim made) (stored_value pool.now labels.now) (turned_value DIM labels.now pool.now) values.old.items }
    ensures { OnOk result (AreDiffering (IsPlaceBelow (dim + 1) made) (stored_value pool.now labels.now) (turned_value DIM labels.now pool.now) values.new.items) }
{
    for number in 0..made {
        add_turned_value(labels, pool, dim, Dart::new(number + 1).unwrap(), values)?;
    }
    Ok(())
}

/// Adds the value of a dart, if it differs.
fn add_turned_value<const DIM: usize>(
    labels: &Labels<DIM>,
    pool: &Pool,
    dim: usize,
    dart: Dart,
    values: &mut Vec<ValueChange>,
) -> Result<(), AllocError>
    requires { dim ≤ DIM }
    ensures { OnOk result (IsValueAdded (record { dim = dim; dart = dart; old = stored_value pool.now labels.now dim dart; new = turned_value DIM labels.now pool.now dim dart }) values.old.items values.new.items) }
{
    let old = stored_value(labels, pool, dim, dart);
    let new = stored_value(labels, pool, DIM - dim, dart);
    if old == new {
        return Ok(());
    }
    values.push(ValueChange {
        dim,
        dart,
        old,
        new,
    })?;
    Ok(())
}

/// The rules that differ in the dual, where they are asked for.
fn turned_rule_changes(
    alloc: Global,
    rules: &RuleRow,
    asked: bool,
) -> Result<Vec<RuleChange>, AllocError>
    ensures { IfOk result (λ changes. IsTrue asked → AreRuleChanges (length rules.now) rules.now (reverse rules.now) changes.items) }
{
    if !asked {
        return Ok(Vec::new(alloc));
    }
    let mut changes = Vec::new(alloc);
    for dim in 0..rules.rules.len() {
        add_turned_rule(rules, dim, &mut changes)?;
    }
    Ok(changes)
}

/// Adds the rule of a dimension, if it differs.
fn add_turned_rule(
    rules: &RuleRow,
    dim: usize,
    changes: &mut Vec<RuleChange>,
) -> Result<(), AllocError>
    requires { dim < length rules.now }
    ensures { OnOk result (IsRuleAdded (record { dim = dim; old = rule_at rules.now dim; new = rule_at rules.now (length rules.now - 1 - dim) }) changes.old.items changes.new.items) }
{
    let old = rule_of(rules, dim);
    let new = rule_of(rules, rules.rules.len() - 1 - dim);
    if same_rule(&old, &new) {
        return Ok(());
    }
    changes.push(RuleChange { dim, old, new })?;
    Ok(())
}
