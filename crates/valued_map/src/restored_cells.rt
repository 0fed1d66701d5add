//! The cells that a way through steps may have changed, with the values that they have at its end.
ghost use Rattle.std.specs.Prelude.{◌≡◌, ℕ, ◌+◌, ◌≤◌, ◌<◌, ◌⊎◌, ◌&&◌, [], length, nat_eq, cond, unwrap_or, slice_index, Contains, Option, IsSome, IfOk, OnOk};
ghost use Rattle.std.specs.Ordering.{nat_cmp};
ghost use Rattle.std.specs.BTreeMap as tree;
ghost use Rattle.map_defs.specs.LinkWords.{LinkWord as MapWord, IsWithin};
ghost use Rattle.map_defs.specs.Rows.{IsLive, IsSound, links_of};
ghost use Rattle.map_defs.specs.Laws.{Laws};
ghost use Rattle.map_defs.specs.Values.{Value as PlainValue};
ghost use Rattle.map_defs.specs.Edits.{Change as LinkChange};
ghost use Rattle.store_defs.specs.Labelings.{HasPlaces, KeepsIds};
ghost use Rattle.store_defs.specs.Groups.{rule_at};
ghost use Rattle.label_laws.specs.Stored.{stored_value};
ghost use Rattle.label_laws.specs.Restoring.{AreRestored};
ghost use Rattle.valued_map.specs.Changing.{AreAdded};
ghost use Rattle.valued_map.specs.Undoing.{IsValueChanged, IsRevalued, IsNearChange, AreGivenValues};
ghost use Rattle.valued_map.specs.Ways.{in_turn, value_put, value_among, value_along, IsRaised, IsNearOne, IsNearStep, IsStepped};

use crate::carrying::make_room;
use crate::ids::stored_value;
use crate::near::add_near_change;
use crate::rules::{has_places, has_rule};
use crate::touched::add_live;
use crate::way::Way;
use attr_pool::{Labels, Pool};
use link_rows::{Change, Links};
use map_kind::{Dart, Kind, LinkWord, Value};
use std::alloc::{AllocError, Global};
use std::collections::BTreeMap;
use transport::{Group, RuleRow, touched_cells};
use undo_journal::{Step, ValueChange};

/// The cells at the end of a way through steps whose darts some step may have moved to another cell, in the dimensions that have a
/// rule there, with the values that they have there, and room in the pool and places in the labels for them. The links and
/// rules are those at the end of the way, the labels and the pool those at its begin. Where no dimension has a rule, nothing
/// is looked at.
pub(crate) fn cells_along<K: Kind, const DIM: usize>(
    alloc: Global,
    way: Way,
    links: &Links<K, DIM>,
    labels: &mut Labels<DIM>,
    pool: &mut Pool,
    rules: &RuleRow,
    steps: &[Step],
) -> Result<Vec<Group>, AllocError>
    requires high { DIM ≤ 8 }
    requires sound { IsSound K.kind DIM links.now.rows }
    requires laws { Laws K.kind (links_of links.now.rows) }
    requires long { (rules.now ≡ []) ⊎ (length rules.now ≡ DIM + 1) }
    ensures cells { IfOk result (λ groups. AreRestored K.kind (links_of links.now.rows) (IsLive links.now.rows)
        (λ i. IsSome (rule_at rules.now i)) (IsStepped way K.kind DIM links.now.rows steps.now)
        (λ i d. value_along way (in_turn way steps.now) i d (stored_value pool.old labels.old i d)) groups.items) }
    ensures places { OnOk result ((i : ℕ) → IsSome (rule_at rules.now i) → HasPlaces labels.new i) }
    ensures places_stay { (i : ℕ) → HasPlaces labels.old i → HasPlaces labels.new i }
    ensures ids { KeepsIds labels.old labels.new }
    ensures made { labels.new.made ≡ labels.old.made }
    ensures room { IfOk result (λ groups. length groups.items ≤ pool.new.spare) }
    ensures slots { pool.new.slots ≡ pool.old.slots }
{
    if !has_places(rules) {
        return Ok(Vec::new(alloc));
    }
    open_places(labels, rules)?;
    let groups = all_cells(alloc, way, links, labels, pool, rules, steps)?;
    make_room(pool, groups.len())?;
    Ok(groups)
}

/// Makes place for the ids of each dimension with a rule.
fn open_places<const DIM: usize>(
    labels: &mut Labels<DIM>,
    rules: &RuleRow,
) -> Result<(), AllocError>
    requires high { DIM ≤ 8 }
    requires long { length rules.now ≤ DIM + 1 }
    ensures places { OnOk result ((i : ℕ) → IsSome (rule_at rules.now i) → HasPlaces labels.new i) }
    ensures places_stay { (i : ℕ) → HasPlaces labels.old i → HasPlaces labels.new i }
    ensures ids { KeepsIds labels.old labels.new }
    ensures made { labels.new.made ≡ labels.old.made }
{
    for dim in 0..DIM + 1 {
        open_place(labels, rules, dim)?;
    }
    Ok(())
}

/// Makes place for the ids of a dimension, if it has a rule.
fn open_place<const DIM: usize>(
    labels: &mut Labels<DIM>,
    rules: &RuleRow,
    dim: usize,
) -> Result<(), AllocError>
    requires { dim ≤ DIM }
    ensures places { OnOk result (IsSome (rule_at rules.now dim) → HasPlaces labels.new dim) }
    ensures places_stay { (i : ℕ) → HasPlaces labels.old i → HasPlaces labels.new i }
    ensures ids { KeepsIds labels.old labels.new }
    ensures made { labels.new.made ≡ labels.old.made }
{
    if !has_rule(rules, dim) {
        return Ok(());
    }
    labels.open(dim)
}

/// The cells, in all dimensions with a rule, of the darts that some step may have moved to another cell of the dimension, and of
/// those whose value in it some step changed, with the values at the end of the way.
fn all_cells<K: Kind, const DIM: usize>(
    alloc: Global,
    way: Way,
    links: &Links<K, DIM>,
    labels: &Labels<DIM>,
    pool: &Pool,
    rules: &RuleRow,
    steps: &[Step],
) -> Result<Vec<Group>, AllocError>
    requires sound { IsSound K.kind DIM links.now.rows }
    requires laws { Laws K.kind (links_of links.now.rows) }
    requires long { length rules.now ≤ DIM + 1 }
    ensures { IfOk result (λ groups. AreRestored K.kind (links_of links.now.rows) (IsLive links.now.rows)
        (λ i. IsSome (rule_at rules.now i)) (IsStepped way K.kind DIM links.now.rows steps.now)
        (λ i d. value_along way (in_turn way steps.now) i d (stored_value pool.now labels.now i d)) groups.items) }
{
    let mut groups = Vec::new(alloc);
    for dim in 0..links.dimension() + 1 {
        let mut cells = ruled_cells(alloc, way, links, labels, pool, rules, steps, dim)?;
        groups.append(&mut cells)?;
    }
    Ok(groups)
}

/// The cells of one dimension; none where it has no rule.
fn ruled_cells<K: Kind, const DIM: usize>(
    alloc: Global,
    way: Way,
    links: &Links<K, DIM>,
    labels: &Labels<DIM>,
    pool: &Pool,
    rules: &RuleRow,
    steps: &[Step],
    dim: usize,
) -> Result<Vec<Group>, AllocError>
    requires dim { dim ≤ DIM }
    requires sound { IsSound K.kind DIM links.now.rows }
    requires laws { Laws K.kind (links_of links.now.rows) }
    ensures { IfOk result (λ cells. AreRestored K.kind (links_of links.now.rows) (IsLive links.now.rows)
        (λ i. (i ≡ dim) × IsSome (rule_at rules.now i)) (IsStepped way K.kind DIM links.now.rows steps.now)
        (λ i d. value_along way (in_turn way steps.now) i d (stored_value pool.now labels.now i d)) cells.items) }
{
    if !has_rule(rules, dim) {
        return Ok(Vec::new(alloc));
    }
    let words = K::words(alloc, links.dimension(), dim)?;
    let mut darts = stepped_darts(alloc, way, links, &words, steps)?;
    add_revalued(links, steps, dim, &mut darts)?;
    let mut cells = touched_cells(alloc, links, dim, &darts)?;
    let values = values_along(alloc, way, steps, dim)?;
    give_values(labels, pool, &values, dim, &mut cells);
    Ok(cells)
}

/// Gives each cell of a dimension the value that its least dart is to have.
fn give_values<const DIM: usize>(
    labels: &Labels<DIM>,
    pool: &Pool,
    values: &BTreeMap<Dart, Option<Value>>,
    dim: usize,
    cells: &mut Vec<Group>,
)
    ensures { AreGivenValues (λ d. unwrap_or (tree.get nat_cmp values.now d) (stored_value pool.now labels.now dim d))
        (length cells.old.items) cells.old.items cells.new.items }
{
    for index in 0..cells.len() {
        let cell = &mut cells[index];
        cell.value = wanted_value(labels, pool, values, dim, &cell.darts);
    }
}

/// The value that the first of some darts is to have in a dimension: the one that steps put there, where some step changed it, and
/// else the one that it has.
fn wanted_value<const DIM: usize>(
    labels: &Labels<DIM>,
    pool: &Pool,
    values: &BTreeMap<Dart, Option<Value>>,
    dim: usize,
    darts: &[Dart],
) -> Option<Value>
    ensures { 0 < length darts.now → result
        ≡ unwrap_or (tree.get nat_cmp values.now (slice_index darts.now 0)) (stored_value pool.now labels.now dim (slice_index darts.now 0)) }
{
    let dart = *darts.first()?;
    match values.get(&dart) {
        Some(value) => *value,
        None => stored_value(labels, pool, dim, dart),
    }
}

/// For each dart whose value in a dimension some step changed, the value at the end of a way through the steps.
fn values_along(
    alloc: Global,
    way: Way,
    steps: &[Step],
    dim: usize,
) -> Result<BTreeMap<Dart, Option<Value>>, AllocError>
    ensures { IfOk result (λ values. (d : ℕ) (value : Option PlainValue)
        → unwrap_or (tree.get nat_cmp values d) value ≡ value_along way (in_turn way steps.now) dim d value) }
{
    let mut values = BTreeMap::new(alloc);
    for passed in 0..steps.len() {
        let index = way.place(passed, steps.len());
        let step = &steps[index];
        put_values(way, &step.values, dim, &mut values)?;
    }
    Ok(values)
}

/// Puts the value that each change of a dimension puts at its dart.
fn put_values(
    way: Way,
    changes: &[ValueChange],
    dim: usize,
    values: &mut BTreeMap<Dart, Option<Value>>,
) -> Result<(), AllocError>
    ensures { OnOk result ((d : ℕ) (value : Option PlainValue) → unwrap_or (tree.get nat_cmp values.new d) value
        ≡ value_among way changes.now dim d (unwrap_or (tree.get nat_cmp values.old d) value)) }
{
    for change in changes {
        put_value(way, *change, dim, values)?;
    }
    Ok(())
}

/// Puts the value that a change puts at its dart, if it is one of the dimension.
fn put_value(
    way: Way,
    change: ValueChange,
    dim: usize,
    values: &mut BTreeMap<Dart, Option<Value>>,
) -> Result<(), AllocError>
    ensures { OnOk result ((d : ℕ) (value : Option PlainValue) → unwrap_or (tree.get nat_cmp values.new d) value
        ≡ cond (nat_eq change.dim dim && nat_eq change.dart d) (value_put way change) (unwrap_or (tree.get nat_cmp values.old d) value)) }
{
    if change.dim == dim {
        values.insert(change.dart, way.value(change))?;
    }
    Ok(())
}

/// The live darts that some step may have moved to another cell that runs along these words: those that steps brought to life,
/// and those near their changes. Some may stand there more than once. The links are those at the end of the way.
fn stepped_darts<K: Kind, const DIM: usize>(
    alloc: Global,
    way: Way,
    links: &Links<K, DIM>,
    words: &[LinkWord],
    steps: &[Step],
) -> Result<Vec<Dart>, AllocError>
    requires low { 2 ≤ DIM }
    requires sound { IsSound K.kind DIM links.now.rows }
    requires words { (w : MapWord) → Contains words.now w → IsWithin DIM w }
    ensures live { IfOk result (λ darts. (x : ℕ) → Contains darts.items x → IsLive links.now.rows x) }
    ensures all { IfOk result (λ darts. (x : ℕ) → IsNearStep way (Contains words.now) links.now.rows steps.now x → IsLive links.now.rows x
        → Contains darts.items x) }
{
    let mut darts = Vec::new(alloc);
    for step in steps {
        add_near(way, links, words, step, &mut darts)?;
    }
    Ok(darts)
}

/// Adds the darts that a step may have moved to another cell that runs along these words.
fn add_near<K: Kind, const DIM: usize>(
    way: Way,
    links: &Links<K, DIM>,
    words: &[LinkWord],
    step: &Step,
    darts: &mut Vec<Dart>,
) -> Result<(), AllocError>
    requires low { 2 ≤ DIM }
    requires sound { IsSound K.kind DIM links.now.rows }
    requires words { (w : MapWord) → Contains words.now w → IsWithin DIM w }
    ensures { OnOk result (AreAdded links.now.rows (IsNearOne way (Contains words.now) links.now.rows step.now) darts.old.items darts.new.items) }
{
    add_raised(way, links, step, darts)?;
    add_at_changes(links, words, &step.edit.changes, darts)
}

/// Adds the live darts that a step brought to life.
fn add_raised<K: Kind, const DIM: usize>(
    way: Way,
    links: &Links<K, DIM>,
    step: &Step,
    darts: &mut Vec<Dart>,
) -> Result<(), AllocError>
    requires { IsSound K.kind DIM links.now.rows }
    ensures { OnOk result (AreAdded links.now.rows (IsRaised way step.now) darts.old.items darts.new.items) }
{
    match way {
        Way::Back => add_darts(links, &step.edit.deaths, darts),
        Way::Forth => add_born(links, step.first, step.edit.births, darts),
    }
}

/// Adds the live ones of so many darts, numbered on from the first.
fn add_born<K: Kind, const DIM: usize>(
    links: &Links<K, DIM>,
    first: u32,
    births: u32,
    darts: &mut Vec<Dart>,
) -> Result<(), AllocError>
    requires { IsSound K.kind DIM links.now.rows }
    ensures { OnOk result (AreAdded links.now.rows (λ x. (first ≤ x) × (x < first + births)) darts.old.items darts.new.items) }
{
    // No dart has the greatest number that there is.
    for number in first..first.saturating_add(births) {
        add_live(links, number, darts)?;
    }
    Ok(())
}

/// Adds the live ones of some darts.
fn add_darts<K: Kind, const DIM: usize>(
    links: &Links<K, DIM>,
    ended: &[Dart],
    darts: &mut Vec<Dart>,
) -> Result<(), AllocError>
    requires { IsSound K.kind DIM links.now.rows }
    ensures { OnOk result (AreAdded links.now.rows (Contains ended.now) darts.old.items darts.new.items) }
{
    for dart in ended {
        add_live(links, dart.number(), darts)?;
    }
    Ok(())
}

/// Adds the darts near changes of links.
fn add_at_changes<K: Kind, const DIM: usize>(
    links: &Links<K, DIM>,
    words: &[LinkWord],
    changes: &[Change],
    darts: &mut Vec<Dart>,
) -> Result<(), AllocError>
    requires low { 2 ≤ DIM }
    requires sound { IsSound K.kind DIM links.now.rows }
    requires words { (w : MapWord) → Contains words.now w → IsWithin DIM w }
    ensures { OnOk result (AreAdded links.now.rows (λ x. (c : LinkChange) × Contains changes.now c × IsNearChange (Contains words.now) links.now.rows c x)
        darts.old.items darts.new.items) }
{
    for change in changes {
        add_near_change(links, words, *change, darts)?;
    }
    Ok(())
}

/// Adds the live darts whose value in a dimension some step changed.
fn add_revalued<K: Kind, const DIM: usize>(
    links: &Links<K, DIM>,
    steps: &[Step],
    dim: usize,
    darts: &mut Vec<Dart>,
) -> Result<(), AllocError>
    requires { IsSound K.kind DIM links.now.rows }
    ensures { OnOk result (AreAdded links.now.rows (IsRevalued steps.now dim) darts.old.items darts.new.items) }
{
    for step in steps {
        add_changed(links, &step.values, dim, darts)?;
    }
    Ok(())
}

/// Adds the live darts of changes of values in a dimension.
fn add_changed<K: Kind, const DIM: usize>(
    links: &Links<K, DIM>,
    changes: &[ValueChange],
    dim: usize,
    darts: &mut Vec<Dart>,
) -> Result<(), AllocError>
    requires { IsSound K.kind DIM links.now.rows }
    ensures { OnOk result (AreAdded links.now.rows (IsValueChanged changes.now dim) darts.old.items darts.new.items) }
{
    for change in changes {
        add_one_changed(links, *change, dim, darts)?;
    }
    Ok(())
}

/// Adds the dart of a change of a value, if it is live and the change is one of the dimension.
fn add_one_changed<K: Kind, const DIM: usize>(
    links: &Links<K, DIM>,
    change: ValueChange,
    dim: usize,
    darts: &mut Vec<Dart>,
) -> Result<(), AllocError>
    requires { IsSound K.kind DIM links.now.rows }
    ensures { OnOk result (AreAdded links.now.rows (λ x. (change.dim ≡ dim) × (change.dart ≡ x)) darts.old.items darts.new.items) }
{
    if change.dim != dim {
        return Ok(());
    }
    add_live(links, change.dart.number(), darts)
}
