//! How the cells of a map get their ids, and lose them.
ghost use Rattle.std.specs.Prelude.{◌≡◌, ℕ, ◌+◌, ◌≤◌, ◌<◌, ◌⊎◌, length, Contains};
ghost use Rattle.store_defs.specs.Labelings.{HasPlaces, KeepsPlaces};
ghost use Rattle.store_defs.specs.Groups.{group_at};
ghost use Rattle.label_laws.specs.Stored.{stored_value};
ghost use Rattle.label_laws.specs.Changing.{AreTaken, AreGiven, AreRelabelled, IsGroupedBelow, IsGroupGiven, AreGroupsGiven};
ghost use Rattle.label_laws.specs.Touching.{CanLabel};
ghost use Rattle.valued_map.specs.Placed.{placed_group, placed_groups};

use attr_pool::{Labels, Pool};
use flat_lists::Lists;
use map_kind::{Dart, Place, Value};
use transport::Group;

/// Gives the darts of each group an id of their own for its value, in place of the ids that they had, and takes the ids
/// of the darts that ended away. It takes no memory: room was made.
pub(crate) fn relabel<const DIM: usize>(
    labels: &mut Labels<DIM>,
    pool: &mut Pool,
    ended: &[Dart],
    groups: &[Group],
)
    requires high { DIM ≤ 8 }
    requires ended { (d : ℕ) → Contains ended.now d → d ≤ labels.old.made }
    requires groups { (n : ℕ) → n < length groups.now → CanLabel DIM labels.old (group_at groups.now n) }
    requires room { length groups.now ≤ pool.old.spare }
    ensures { AreRelabelled (λ i d. ((i < DIM + 1) × Contains ended.now d) ⊎ IsGroupedBelow (length groups.now) groups.now i d)
        groups.now labels.old labels.new pool.old pool.new }
{
    end_ids(labels, pool, ended);
    clear_groups(labels, pool, groups);
    give_groups(labels, pool, groups);
}

/// Takes the ids of the darts of groups away.
fn clear_groups<const DIM: usize>(labels: &mut Labels<DIM>, pool: &mut Pool, groups: &[Group])
    requires { (n : ℕ) → n < length groups.now → CanLabel DIM labels.old (group_at groups.now n) }
    ensures { AreTaken (IsGroupedBelow (length groups.now) groups.now) labels.old labels.new pool.old pool.new }
{
    for group in groups {
        take_ids(labels, pool, group.dim, &group.darts);
    }
}

/// Gives each group with a value an id.
fn give_groups<const DIM: usize>(labels: &mut Labels<DIM>, pool: &mut Pool, groups: &[Group])
    requires groups { (n : ℕ) → n < length groups.now → CanLabel DIM labels.old (group_at groups.now n) }
    requires room { length groups.now ≤ pool.old.spare }
    ensures { AreGroupsGiven groups.now (length groups.now) labels.old labels.new pool.old pool.new }
{
    for group in groups {
        give_value(labels, pool, group);
    }
}

/// Gives the darts of each 0-cell an id for the value of its place.
pub(crate) fn give_cells<const DIM: usize>(
    labels: &mut Labels<DIM>,
    pool: &mut Pool,
    places: &[Place],
    cells: &Lists<Dart>,
)
    requires long { length cells.now ≡ length places.now }
    requires groups { (n : ℕ) → n < length places.now → CanLabel DIM labels.old (placed_group places.now cells.now n) }
    requires room { length places.now ≤ pool.old.spare }
    ensures { AreGroupsGiven (placed_groups places.now cells.now) (length places.now) labels.old labels.new pool.old pool.new }
{
    for (index, place) in places.iter().enumerate() {
        give_id(labels, pool, 0, cells.list(index), place.value);
    }
}

/// Takes the ids of darts away, in all dimensions.
pub(crate) fn end_ids<const DIM: usize>(labels: &mut Labels<DIM>, pool: &mut Pool, darts: &[Dart])
    requires high { DIM ≤ 8 }
    requires darts { (d : ℕ) → Contains darts.now d → d ≤ labels.old.made }
    ensures { AreTaken (λ i d. (i < DIM + 1) × Contains darts.now d) labels.old labels.new pool.old pool.new }
{
    for dim in 0..DIM + 1 {
        take_ids(labels, pool, dim, darts);
    }
}

/// Takes the ids of darts in a dimension away, and with them the values that they stand for.
pub(crate) fn take_ids<const DIM: usize>(
    labels: &mut Labels<DIM>,
    pool: &mut Pool,
    dim: usize,
    darts: &[Dart],
)
    requires dim { dim ≤ DIM }
    requires darts { (d : ℕ) → Contains darts.now d → d ≤ labels.old.made }
    ensures { AreTaken (λ i d. (i ≡ dim) × Contains darts.now d) labels.old labels.new pool.old pool.new }
{
    for dart in darts {
        take_id(labels, pool, dim, *dart);
    }
}

/// Takes the id of a dart in a dimension away, if it has one, and with it the value that it stands for.
pub(crate) fn take_id<const DIM: usize>(
    labels: &mut Labels<DIM>,
    pool: &mut Pool,
    dim: usize,
    dart: Dart,
)
    requires dim { dim ≤ DIM }
    requires dart { dart ≤ labels.old.made }
    ensures { AreTaken (λ i d. (i ≡ dim) × (d ≡ dart)) labels.old labels.new pool.old pool.new }
{
    let Some(id) = labels.id(dim, dart) else {
        return;
    };
    labels.put(dim, dart, None);
    if pool.value(id).is_some() {
        pool.release(id);
    }
}

/// Gives the darts of a group an id for its value, if it has one.
fn give_value<const DIM: usize>(labels: &mut Labels<DIM>, pool: &mut Pool, group: &Group)
    requires group { CanLabel DIM labels.old group.now }
    requires room { 1 ≤ pool.old.spare }
    ensures given { IsGroupGiven group.now labels.old labels.new pool.old pool.new }
    ensures spare { pool.old.spare ≤ pool.new.spare + 1 }
    ensures made { labels.new.made ≡ labels.old.made }
    ensures places { KeepsPlaces labels.old labels.new }
{
    let Some(value) = group.value else {
        return;
    };
    give_id(labels, pool, group.dim, &group.darts, value);
}

/// Gives darts one new id in a dimension, which stands for a value.
pub(crate) fn give_id<const DIM: usize>(
    labels: &mut Labels<DIM>,
    pool: &mut Pool,
    dim: usize,
    darts: &[Dart],
    value: Value,
)
    requires dim { dim ≤ DIM }
    requires darts { (d : ℕ) → Contains darts.now d → d ≤ labels.old.made }
    requires places { HasPlaces labels.old dim }
    requires room { 1 ≤ pool.old.spare }
    ensures given { AreGiven dim (Contains darts.now) value labels.old labels.new pool.old pool.new }
    ensures spare { pool.old.spare ≤ pool.new.spare + 1 }
{
    let id = pool.make(value);
    for dart in darts {
        labels.put(dim, *dart, Some(id));
    }
}

/// The value of the cell of a dart, by its id.
pub(crate) fn stored_value<const DIM: usize>(
    labels: &Labels<DIM>,
    pool: &Pool,
    dim: usize,
    dart: Dart,
) -> Option<Value>
    ensures { result ≡ stored_value pool.now labels.now dim dart }
{
    pool.value(labels.id(dim, dart)?)
}
