//! The rules of a listing and its values.
ghost use Rattle.std.specs.Prelude.{◌≡◌, ℕ, ◌+◌, ◌≤◌, ◌<◌, IfOk, OnOk, List, ◌++◌, ◌∷◌, [], length, None};
ghost use Rattle.machine_defs.specs.Listing.{rules_from, ListValue as ValuedCell};
ghost use Rattle.store_defs.specs.Labelings.{id_of};
ghost use Rattle.store_defs.specs.Groups.{rule_at};
ghost use Rattle.label_laws.specs.Stored.{stored_value};
ghost use Rattle.label_laws.specs.Lists.{AreListed, IsNamed, listed};

use crate::ids::stored_value;
use crate::rules::has_rule;
use attr_pool::{Labels, Pool};
use attr_rules::TableRule;
use link_rows::Links;
use list_text::{ListRule, ListValue};
use map_kind::{Dart, Kind, Place};
use std::alloc::{AllocError, Global};
use transport::RuleRow;

/// The rules of the dimensions that have one, ascending.
pub(crate) fn list_rules(alloc: Global, rules: &RuleRow) -> Result<Vec<ListRule>, AllocError>
    requires { length rules.now ≤ 9 }
    ensures { IfOk result (λ listed. listed.items ≡ rules_from 0 rules.now) }
{
    let mut listed = Vec::new(alloc);
    for dim in 0..rules.rules.len() {
        list_rule(dim, rules.rules[dim], &mut listed)?;
    }
    Ok(listed)
}

/// Lists the rule of a dimension, if it has one.
fn list_rule(
    dim: usize,
    rule: Option<TableRule>,
    listed: &mut Vec<ListRule>,
) -> Result<(), AllocError>
    requires { dim ≤ 8 }
    ensures { OnOk result (listed.new.items ≡ listed.old.items ++ rules_from dim (rule ∷ [])) }
{
    let Some(rule) = rule else {
        return Ok(());
    };
    let dim = dim as u32;
    listed.push(ListRule { dim, rule })?;
    Ok(())
}

/// The cells with a value, each by its least dart, ascending by dimension, then by dart.
pub(crate) fn list_values<K: Kind, const DIM: usize>(
    alloc: Global,
    links: &Links<K, DIM>,
    labels: &Labels<DIM>,
    pool: &Pool,
    rules: &RuleRow,
) -> Result<Vec<ListValue>, AllocError>
    requires { (i d : ℕ) → rule_at rules.now i ≡ None → id_of labels.now i d ≡ None }
    ensures { IfOk result (λ values. AreListed labels.now pool.now
        (λ i d. (i < DIM + 1) × IsNamed K.kind links.now.rows i d) values.items) }
{
    let mut values = Vec::new(alloc);
    for dim in 0..links.dimension() + 1 {
        list_dimension(alloc, links, labels, pool, rules, dim, &mut values)?;
    }
    Ok(values)
}

/// Lists the cells of a dimension with a value behind those that stand in `values`. Without a rule it has none, and is not
/// looked at.
pub(crate) fn list_dimension<K: Kind, const DIM: usize>(
    alloc: Global,
    links: &Links<K, DIM>,
    labels: &Labels<DIM>,
    pool: &Pool,
    rules: &RuleRow,
    dim: usize,
    values: &mut Vec<ListValue>,
) -> Result<(), AllocError>
    requires high { DIM ≤ 8 }
    requires dim { dim ≤ DIM }
    requires bare { (d : ℕ) → rule_at rules.now dim ≡ None → id_of labels.now dim d ≡ None }
    ensures { OnOk result ((behind : List ValuedCell) × (values.new.items ≡ values.old.items ++ behind)
        × AreListed labels.now pool.now (λ i d. (i ≡ dim) × IsNamed K.kind links.now.rows i d) behind) }
{
    if !has_rule(rules, dim) {
        return Ok(());
    }
    let cells = cell_walk::cells(alloc, links, dim)?;
    for dart in &cells {
        list_value(labels, pool, dim, *dart, values)?;
    }
    Ok(())
}

/// Lists a cell, if it has a value.
fn list_value<const DIM: usize>(
    labels: &Labels<DIM>,
    pool: &Pool,
    dim: usize,
    dart: Dart,
    values: &mut Vec<ListValue>,
) -> Result<(), AllocError>
    requires { dim ≤ 8 }
    ensures { OnOk result (values.new.items ≡ values.old.items ++ listed dim dart (stored_value pool.now labels.now dim dart)) }
{
    let Some(value) = stored_value(labels, pool, dim, dart) else {
        return Ok(());
    };
    let dim = dim as u32;
    let place = Place { dart, value };
    values.push(ListValue { dim, place })?;
    Ok(())
}
