//! The rules and the values that the lines of a text mean.
ghost use Rattle.std.specs.Prelude.{◌≡◌, ◌≤◌, ◌<◌, ◌^◌, ◌+◌, ◌==◌, ◌++◌, [], ◌∷◌, ◌⊎◌, All, Any, IsTrue, ◌↔◌, IfOk, IfErr, IfSome, IfNone, OnOk, if◌then◌else◌};
ghost use Rattle.std.specs.List.{list_any};
ghost use Rattle.machine_defs.specs.Listing.{ListRule as ListedRule, ListValue as ListedValue};
ghost use Rattle.machine_defs.specs.ListingFaults.{IsLawfulRow, IsRuleOf, IsValueOf, listing_meant, rules_meant, rules_of_values, first_copy};
ghost use Rattle.list_text.specs.Letters.{kind_named};
ghost use Rattle.list_text.specs.Views.{told_view};
ghost use Rattle.list_text.specs.Ranks.{AreLeast, lists_of};
ghost use Rattle.list_text.specs.Judging.{IsTold, IsValuesFault};

use crate::cells::Cells;
use crate::form::{ToldRule, ToldValue};
use crate::lines::bad;
use crate::table::RowTable;
use crate::told::Told;
use crate::{ListFault, ListRule, ListValue, ListWhat};
use attr_rules::{Merge, Split, TableRule};
use map_kind::{Alpha, Beta, Place};
use std::alloc::{AllocError, Global};

/// The rules of the listing's lines, or in version 1 those that its values mean.
pub(crate) fn rules_meant(alloc: Global, told: &Told) -> Result<Vec<ListRule>, AllocError>
    requires told { IsTold told.now }
    requires rules { All (IsRuleOf (told_view told.now).listing) (told_view told.now).listing.rules }
    ensures { IfOk result (λ rules. rules.items ≡ rules_meant (told_view told.now)) }
{
    if told.header.version == 1 {
        rules_of_values(alloc, told.header.dim, told.values.as_slice())
    } else {
        narrow_rules(alloc, told.rules.as_slice())
    }
}

/// The rules in the form of a listing.
fn narrow_rules(alloc: Global, rules: &[ToldRule]) -> Result<Vec<ListRule>, AllocError>
    requires { All (λ (rule : ListedRule). rule.dim < 2 ^ 32) rules.now }
    ensures { IfOk result (λ narrow. narrow.items ≡ rules.now) }
{
    let mut narrow = Vec::with_capacity(alloc, rules.len())?;
    for rule in rules {
        narrow.push(narrow_rule(*rule))?;
    }
    Ok(narrow)
}

/// A rule in the form of a listing.
fn narrow_rule(rule: ToldRule) -> ListRule
    requires { rule.dim < 2 ^ 32 }
    ensures { result ≡ rule }
{
    ListRule {
        dim: rule.dim as u32,
        rule: rule.rule,
    }
}

/// The rule that keeps the first value and copies it, for each dimension up to `dim` that has a value.
fn rules_of_values(
    alloc: Global,
    dim: u32,
    values: &[ToldValue],
) -> Result<Vec<ListRule>, AllocError>
    requires { dim ≤ 4 }
    ensures { IfOk result (λ rules. rules.items ≡ rules_of_values dim values.now) }
{
    let mut rules = Vec::new(alloc);
    for next in 0..dim + 1 {
        push_rule(&mut rules, next, values)?;
    }
    Ok(rules)
}

/// Puts the rule that keeps the first value and copies it behind the others, if the dimension has a value.
fn push_rule(rules: &mut Vec<ListRule>, dim: u32, values: &[ToldValue]) -> Result<(), AllocError>
    ensures { OnOk result (rules.new.items
        ≡ rules.old.items ++ (if list_any (λ (v : ListedValue). v.dim == dim) values.now then first_copy dim ∷ [] else [])) }
{
    if has_value(values, dim) {
        rules.push(first_copy(dim))?;
    }
    Ok(())
}

/// Whether a dimension has a value.
fn has_value(values: &[ToldValue], dim: u32) -> bool
    ensures { result ≡ list_any (λ (v : ListedValue). v.dim == dim) values.now }
{
    values.iter().any(|value| value.dim == u64::from(dim))
}

/// The rule that keeps the first value and copies it.
fn first_copy(dim: u32) -> ListRule
    ensures { result ≡ first_copy dim }
{
    let rule = TableRule {
        merge: Merge::First,
        split: Split::Copied,
    };
    ListRule { dim, rule }
}

/// The values in the form of a listing; or the fault of the first that no map has.
pub(crate) fn values_meant(
    alloc: Global,
    table: &RowTable,
    told: &Told,
    rules: &[ListRule],
) -> Result<Vec<ListValue>, ListFault>
    requires same { table.now ≡ told.now.rows.items }
    requires told { IsTold told.now }
    requires lawful { All (IsLawfulRow (told_view told.now).listing) (told_view told.now).listing.rows }
    requires rules { rules.now ≡ rules_meant (told_view told.now) }
    ensures same { IfOk result (λ values. values.items ≡ (told_view told.now).listing.values) }
    ensures each { OnOk result (All (IsValueOf (listing_meant (told_view told.now))) (told_view told.now).listing.values) }
    ensures fault { IfErr result (λ fault. (fault ≡ ListFault.NoMemory) ⊎ IsValuesFault (told_view told.now) fault) }
{
    let mut values = Vec::new(alloc);
    if told.values.is_empty() {
        return Ok(values);
    }
    let cells = cells_of(alloc, table, told)?;
    for (place, value) in told.values.iter().enumerate() {
        match value_meant(table, told, rules, &cells, *value) {
            Some(meant) => values.push(meant)?,
            None => {
                let line = told.rows.len() + told.rules.len() + place + 2;
                return Err(bad(line as u32, ListWhat::Values));
            }
        }
    }
    Ok(values)
}

/// The least darts of the cells of the rows.
fn cells_of(alloc: Global, table: &RowTable, told: &Told) -> Result<Cells, AllocError>
    requires same { table.now ≡ told.now.rows.items }
    requires told { IsTold told.now }
    requires lawful { All (IsLawfulRow (told_view told.now).listing) (told_view told.now).listing.rows }
    ensures { IfOk result (λ cells.
        AreLeast (kind_named told.now.header.letter) (told.now.header.dim + 1) told.now.rows.items (lists_of cells.least.items)) }
{
    let rows = told.rows.as_slice();
    match (told.header.letter == b'g', told.header.dim) {
        (true, 2) => Cells::new::<Alpha, 2>(alloc, table, rows),
        (true, 3) => Cells::new::<Alpha, 3>(alloc, table, rows),
        (true, _) => Cells::new::<Alpha, 4>(alloc, table, rows),
        (false, 2) => Cells::new::<Beta, 2>(alloc, table, rows),
        (false, 3) => Cells::new::<Beta, 3>(alloc, table, rows),
        (false, _) => Cells::new::<Beta, 4>(alloc, table, rows),
    }
}

/// The value in the form of a listing; none exactly where it is not that of a cell, of a dimension that has a rule.
fn value_meant(
    table: &RowTable,
    told: &Told,
    rules: &[ListRule],
    cells: &Cells,
    value: ToldValue,
) -> Option<ListValue>
    requires same { table.now ≡ told.now.rows.items }
    requires told { IsTold told.now }
    requires rules { rules.now ≡ rules_meant (told_view told.now) }
    requires cells { AreLeast (kind_named told.now.header.letter) (told.now.header.dim + 1) told.now.rows.items (lists_of cells.now.least.items) }
    ensures same { IfSome result (λ meant. meant ≡ value) }
    ensures some { IfSome result (λ meant. IsValueOf (listing_meant (told_view told.now)) value) }
    ensures none { IfNone result (IsValueOf (listing_meant (told_view told.now)) value → ⊥) }
{
    if value.dim > u64::from(told.header.dim) {
        return None;
    }
    let dim = value.dim as u32;
    if !has_rule(rules, dim) {
        return None;
    }
    let place = table.place_of(value.dart)?;
    if !cells.names(dim as usize, place) {
        return None;
    }
    let dart = told.rows[place].dart;
    Some(ListValue {
        dim,
        place: Place {
            dart,
            value: value.value,
        },
    })
}

/// Whether a dimension has a rule.
fn has_rule(rules: &[ListRule], dim: u32) -> bool
    ensures { IsTrue result ↔ Any (λ (rule : ListedRule). rule.dim ≡ dim) rules.now }
{
    rules.iter().any(|rule| rule.dim == dim)
}
