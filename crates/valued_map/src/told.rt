//! What a change is told as, where it is asked for.
ghost use Rattle.std.specs.Prelude.{◌≡◌, ◌≢◌, ℕ, ◌+◌, ◌≤◌, ◌<◌, ◌⊎◌, ◌↔◌, ◌==◌, ◌++◌, [], ◌∷◌, if◌then◌else◌, map, length, Contains, AllPairs, IfOk, OnOk};
ghost use Rattle.std.specs.List.Sorted.{IsStrictlyIncreasing};
ghost use Rattle.map_defs.specs.Rows.{links_of, IsLive};
ghost use Rattle.map_defs.specs.Cells.{InCell};
ghost use Rattle.map_defs.specs.Edits.{Change as LinkChange};
ghost use Rattle.machine_defs.specs.Difference.{IsLinkBefore};
ghost use Rattle.store_defs.specs.Labelings.{Labeling};
ghost use Rattle.store_defs.specs.Groups.{group_at};
ghost use Rattle.label_laws.specs.Stored.{stored_value};
ghost use Rattle.valued_map.specs.Told.{IsBegun, finished, first_number, IsSorted, IsBefore, IsRelabelledPlace, AreOldValues, AreNewValues, old_value};

use crate::ids::stored_value;
use attr_pool::{Labels, Pool};
use cell_walk::cell;
use link_rows::{BornRows, Change, Edit, Links, MADE_MAX, PlainEdit};
use map_kind::{Dart, Kind, Value};
use std::alloc::{AllocError, Global};
use transport::Group;
use undo_journal::{RuleChange, Step, ValueChange};

/// Begins the step of an edit that is about to be made after so many darts were made, if it is asked for: its edit is told
/// as a log has it, and its values and rules are still to come. It costs the size of the edit times a logarithm.
pub(crate) fn begin_step(
    alloc: Global,
    made: u32,
    edit: &Edit,
    asked: bool,
) -> Result<Option<Step>, AllocError>
    requires made { made ≤ MADE_MAX }
    requires once { AllPairs (λ b c. b.dart ≡ c.dart → b.link ≡ c.link → ⊥) edit.now.changes }
    requires ends { AllPairs (λ c d. c ≢ d) edit.now.deaths }
    ensures { IfOk result (λ draft. IsBegun asked made edit.now draft) }
{
    if !asked {
        return Ok(None);
    }
    let edit = sorted_edit(alloc, edit)?;
    Ok(Some(Step {
        first: first_number(made, edit.births),
        edit,
        values: Vec::new(alloc),
        rules: Vec::new(alloc),
    }))
}

/// The step that was begun, with the values and rules that differ.
pub(crate) fn finish_step(
    draft: Option<Step>,
    values: Vec<ValueChange>,
    rules: Vec<RuleChange>,
) -> Option<Step>
    ensures { result ≡ finished draft values.items rules.items }
{
    let step = draft?;
    Some(Step {
        first: step.first,
        edit: step.edit,
        values,
        rules,
    })
}

/// The number of the first of so many new darts, or 0 where none is born.
fn first_number(made: u32, births: u32) -> u32
    requires { made ≤ MADE_MAX }
    ensures { result ≡ first_number made births }
{
    if births == 0 { 0 } else { made + 1 }
}

/// The edit that changes nothing.
pub(crate) fn no_edit(alloc: Global) -> Edit
    ensures { result ≡ record { births = 0; deaths = []; changes = [] } }
{
    Edit {
        births: 0,
        deaths: Vec::new(alloc),
        changes: Vec::new(alloc),
        born: BornRows::none(alloc),
    }
}

/// The edit as a log has it. It costs the size of the edit times a logarithm.
fn sorted_edit(alloc: Global, edit: &Edit) -> Result<PlainEdit, AllocError>
    requires once { AllPairs (λ b c. b.dart ≡ c.dart → b.link ≡ c.link → ⊥) edit.now.changes }
    requires ends { AllPairs (λ c d. c ≢ d) edit.now.deaths }
    ensures { IfOk result (λ sorted. IsSorted edit.now sorted) }
{
    let changes = edit.all_changes(alloc)?;
    Ok(PlainEdit {
        births: edit.births,
        deaths: ascending(alloc, &edit.deaths)?,
        changes: changes_in_order(changes),
    })
}

/// The same darts, ascending, each once.
fn ascending(alloc: Global, darts: &[Dart]) -> Result<Vec<Dart>, AllocError>
    ensures members { IfOk result (λ ascending. (d : ℕ) → Contains ascending.items d ↔ Contains darts.now d) }
    ensures ascending { IfOk result (λ ascending. IsStrictlyIncreasing ascending.items) }
{
    let mut ascending = Vec::from_slice(alloc, darts)?;
    ascending.sort_unstable();
    ascending.dedup();
    Ok(ascending)
}

/// Those of the changes that change something, in the order of a log. It takes no memory.
fn changes_in_order(changes: Vec<Change>) -> Vec<Change>
    requires { AllPairs (λ b c. b.dart ≡ c.dart → b.link ≡ c.link → ⊥) changes.items }
    ensures members { (c : LinkChange) → Contains result.items c ↔ (Contains changes.items c × (c.old ≢ c.new)) }
    ensures ordered { AllPairs IsLinkBefore result.items }
{
    let mut kept = changes;
    kept.retain(|change| change.old != change.new);
    kept.sort_unstable_by_key(|change| (change.dart, change.link));
    kept
}

/// The darts that an edit ends, and those that it bore after so many.
pub(crate) fn renewed(alloc: Global, edit: &Edit, older: u32) -> Result<Vec<Dart>, AllocError>
    requires { older + edit.now.births ≤ MADE_MAX }
    ensures { IfOk result (λ darts. (d : ℕ) → Contains darts.items d
        ↔ (Contains edit.now.deaths d ⊎ ((older < d) × (d < older + edit.now.births + 1)))) }
{
    let mut darts = Vec::from_slice(alloc, &edit.deaths)?;
    for number in older + 1..older + edit.births + 1 {
        add_numbered(number, &mut darts)?;
    }
    Ok(darts)
}

/// Adds the dart of a number.
fn add_numbered(number: u32, darts: &mut Vec<Dart>) -> Result<(), AllocError>
    requires { 0 < number }
    ensures { OnOk result (darts.new.items ≡ darts.old.items ++ number ∷ []) }
{
    let Some(dart) = Dart::new(number) else {
        unreachable!();
    };
    darts.push(dart)?;
    Ok(())
}

/// The values that the darts had before an edit whose ids it gives anew, in the order of a log: those of some darts, in all
/// dimensions, and those of groups. Darts beyond the number `older` had none. It costs these darts times a logarithm, and the
/// groups, for each dimension.
pub(crate) fn old_values<const DIM: usize>(
    alloc: Global,
    labels: &Labels<DIM>,
    pool: &Pool,
    older: u32,
    renewed: &[Dart],
    groups: &[Group],
) -> Result<Vec<ValueChange>, AllocError>
    requires high { DIM ≤ 8 }
    requires groups { (n : ℕ) → n < length groups.now → (group_at groups.now n).dim ≤ DIM }
    ensures { IfOk result (λ values. (before : Labeling) → ((i d : ℕ) → IsBefore older before labels.now i d)
        → AreOldValues (IsRelabelledPlace DIM renewed.now groups.now) before pool.now values.items) }
{
    let mut values = Vec::new(alloc);
    for dim in 0..DIM + 1 {
        let darts = darts_in(alloc, dim, renewed, groups)?;
        add_values(labels, pool, older, dim, &darts, &mut values)?;
    }
    Ok(values)
}

/// Some darts, and those of the groups of a dimension, ascending, each once.
fn darts_in(
    alloc: Global,
    dim: usize,
    renewed: &[Dart],
    groups: &[Group],
) -> Result<Vec<Dart>, AllocError>
    ensures members { IfOk result (λ darts. (d : ℕ) → Contains darts.items d
        ↔ (Contains renewed.now d ⊎ ((n : ℕ) × (n < length groups.now) × ((group_at groups.now n).dim ≡ dim) × Contains (group_at groups.now n).darts d))) }
    ensures ascending { IfOk result (λ darts. IsStrictlyIncreasing darts.items) }
{
    let mut darts = Vec::from_slice(alloc, renewed)?;
    for group in groups {
        add_group(dim, group, &mut darts)?;
    }
    ascending(alloc, &darts)
}

/// Adds the darts of a group, if it is of the dimension.
fn add_group(dim: usize, group: &Group, darts: &mut Vec<Dart>) -> Result<(), AllocError>
    ensures { OnOk result (darts.new.items ≡ darts.old.items ++ (if group.now.dim == dim then group.now.darts else [])) }
{
    if group.dim != dim {
        return Ok(());
    }
    darts.extend_from_slice(&group.darts)
}

/// The values that the darts of a cell have, in the order of a log. It costs the size of the cell times a logarithm.
pub(crate) fn cell_values<K: Kind, const DIM: usize>(
    alloc: Global,
    links: &Links<K, DIM>,
    labels: &Labels<DIM>,
    pool: &Pool,
    dim: usize,
    dart: Dart,
) -> Result<Vec<ValueChange>, AllocError>
    requires dim { dim ≤ DIM }
    requires live { IsLive links.now.rows dart }
    ensures { IfOk result (λ values.
        AreOldValues (λ i d. (i ≡ dim) × InCell K.kind (links_of links.now.rows) dim dart d) labels.now pool.now values.items) }
{
    let mut values = Vec::new(alloc);
    let darts = cell(alloc, links, dim, dart)?;
    add_values(labels, pool, links.made(), dim, &darts, &mut values)?;
    Ok(values)
}

/// Adds the values that darts had in a dimension before an edit; those beyond the number `older` had none.
fn add_values<const DIM: usize>(
    labels: &Labels<DIM>,
    pool: &Pool,
    older: u32,
    dim: usize,
    darts: &[Dart],
    values: &mut Vec<ValueChange>,
) -> Result<(), AllocError>
    ensures { OnOk result ((before : Labeling) → ((d : ℕ) → Contains darts.now d → IsBefore older before labels.now dim d)
        → values.new.items ≡ values.old.items ++ map (old_value before pool.now dim) darts.now) }
{
    for dart in darts {
        let old = value_before(labels, pool, older, dim, *dart);
        let new = old;
        values.push(ValueChange {
            dim,
            dart: *dart,
            old,
            new,
        })?;
    }
    Ok(())
}

/// The value that a dart had in a dimension before an edit, where those beyond the number `older` had none.
fn value_before<const DIM: usize>(
    labels: &Labels<DIM>,
    pool: &Pool,
    older: u32,
    dim: usize,
    dart: Dart,
) -> Option<Value>
    ensures { (before : Labeling) → IsBefore older before labels.now dim dart → result ≡ stored_value pool.now before dim dart }
{
    if dart.number() > older {
        return None;
    }
    stored_value(labels, pool, dim, dart)
}

/// Those of the values that are others now, with the new ones. It takes no memory.
pub(crate) fn new_values<const DIM: usize>(
    labels: &Labels<DIM>,
    pool: &Pool,
    olds: Vec<ValueChange>,
) -> Vec<ValueChange>
    ensures { AreNewValues labels.now pool.now olds.items result.items }
{
    let mut values = olds;
    for place in 0..values.len() {
        let change = values[place];
        values[place].new = stored_value(labels, pool, change.dim, change.dart);
    }
    values.retain(|change| change.old != change.new);
    values
}
