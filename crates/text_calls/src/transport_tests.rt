ghost use Rattle.std.specs.Prelude.{◌≡◌, ℕ, ◌≤◌, ◌<◌, ◌↔◌, ◌⊎◌, Some, length, Contains, IfOk, OnOk};
ghost use Rattle.map_defs.specs.Rows.{IsLive};
ghost use Rattle.store_defs.specs.Stores.{IsHeld};
ghost use Rattle.store_defs.specs.Labelings.{id_of, HasPlaces};
ghost use Rattle.store_defs.specs.Groups.{darts_in};

use attr_pool::{AttrId, Labels, Pool};
use attr_rules::{Merge, OrCopy, Split, TableRule};
use link_rows::{Links, polygon_edit};
use map_kind::{Alpha, Beta, Dart, Kind, Value};
use std::alloc::{AllocError, Global};
use std::test::Fail;
use transport::{Group, RuleRow, TouchedDarts, carry};

fn value(a: i64, b: i64, c: i64) -> Value {
    Value { a, b, c }
}

/// All live darts, ascending.
fn live_darts<K: Kind>(alloc: Global, links: &Links<K, 2>) -> Result<Vec<Dart>, AllocError>
    ensures { IfOk result (λ darts. (d : ℕ) → Contains darts.items d ↔ IsLive links.now.rows d) }
{
    let mut darts = Vec::new(alloc);
    for number in 1..links.made() + 1 {
        add_live(links, Dart::new(number).unwrap(), &mut darts)?;
    }
    Ok(darts)
}

fn add_live<K: Kind>(
    links: &Links<K, 2>,
    dart: Dart,
    darts: &mut Vec<Dart>,
) -> Result<(), AllocError>
    ensures { OnOk result ((d : ℕ)
        → Contains darts.new.items d ↔ (Contains darts.old.items d ⊎ ((dart ≡ d) × IsLive links.now.rows d))) }
{
    if !links.is_live(dart) {
        return Ok(());
    }
    darts.push(dart)?;
    Ok(())
}

/// Gives a dart an id in dimension 0.
fn put(labels: &mut Labels<2>, pool: &Pool, dart: Dart, id: AttrId)
    requires dart { dart ≤ labels.old.made }
    requires places { HasPlaces labels.old 0 }
    requires id { IsHeld pool.now id }
    requires held { (i d id : ℕ) → id_of labels.old i d ≡ Some id → IsHeld pool.now id }
    ensures made { labels.new.made ≡ labels.old.made }
    ensures places { HasPlaces labels.new 0 }
    ensures held { (i d id : ℕ) → id_of labels.new i d ≡ Some id → IsHeld pool.now id }
{
    labels.put(0, dart, Some(id));
}

/// Labels of dimension 0: the darts 1, 4 and 6 have one id, 2 and 3 one each.
fn labels_of(
    alloc: Global,
    pool: &Pool,
    three: AttrId,
    two: AttrId,
    other: AttrId,
) -> Result<Labels<2>, AllocError>
    requires three { IsHeld pool.now three }
    requires two { IsHeld pool.now two }
    requires other { IsHeld pool.now other }
    ensures { IfOk result (λ labels. (i d id : ℕ) → id_of labels i d ≡ Some id → IsHeld pool.now id) }
{
    let mut labels = Labels::<2>::new(alloc);
    labels.open(0)?;
    labels.grow(6)?;
    put(&mut labels, pool, Dart::new(1).unwrap(), three);
    put(&mut labels, pool, Dart::new(6).unwrap(), three);
    put(&mut labels, pool, Dart::new(4).unwrap(), three);
    put(&mut labels, pool, Dart::new(2).unwrap(), two);
    put(&mut labels, pool, Dart::new(3).unwrap(), other);
    Ok(labels)
}

/// Rules of the dimensions 0 and 2.
fn rules(alloc: Global) -> Result<RuleRow, AllocError>
    ensures { IfOk result (λ rules. length rules ≡ 3) }
{
    let vertices = TableRule {
        merge: Merge::Sum,
        split: Split::Share,
    };
    let faces = TableRule {
        merge: Merge::First,
        split: Split::Copied,
    };
    Ok(RuleRow {
        rules: Vec::from_slice(alloc, &[Some(vertices), None, Some(faces)])?,
    })
}

/// Carries the values of a triangle by these labels and rules.
fn carried<K: Kind>(alloc: Global, links: &Links<K, 2>) -> Result<Vec<Group>, AllocError> {
    let mut pool = Pool::new(alloc);
    pool.reserve(3)?;
    let three = pool.make(value(7, -7, 0));
    let two = pool.make(value(1, 2, 3));
    let other = pool.make(value(10, 20, 30));
    let labels = labels_of(alloc, &pool, three, two, other)?;
    let rules = rules(alloc)?;
    let touched = all_touched(alloc, links)?;
    carry(alloc, links, &labels, &pool, &rules, &OrCopy, &touched)
}

/// All live darts in each dimension.
fn all_touched<K: Kind>(alloc: Global, links: &Links<K, 2>) -> Result<TouchedDarts, AllocError>
    ensures live { IfOk result (λ touched. (i d : ℕ) → Contains (darts_in touched i) d → IsLive links.now.rows d) }
    ensures all { IfOk result (λ touched. (i d : ℕ) → i < 3 → IsLive links.now.rows d → Contains (darts_in touched i) d) }
{
    let mut by_dim = Vec::new(alloc);
    by_dim.push(live_darts(alloc, links)?)?;
    by_dim.push(live_darts(alloc, links)?)?;
    by_dim.push(live_darts(alloc, links)?)?;
    Ok(TouchedDarts { by_dim })
}

/// Whether a group is the vertex of these two darts, with this value.
fn is_vertex(group: Option<&Group>, one: u32, other: u32, value: Value) -> bool {
    let Some(group) = group else {
        return false;
    };
    let numbers = match group.darts.as_slice() {
        [first, second] => (first.number(), second.number()),
        _ => (0, 0),
    };
    group.dim == 0 && numbers == (one, other) && group.value == Some(value)
}

/// Whether a group has this least dart and this value.
fn has_value(group: Option<&Group>, least: u32, value: Option<Value>) -> bool {
    match group {
        Some(group) => {
            group.darts.first().map(|dart| dart.number()) == Some(least) && group.value == value
        }
        None => false,
    }
}

// The vertices of a triangle are 1 6, 2 3 and 4 5.
#[test]
fn splits_and_merges_the_values_of_vertices(rt: HostRuntime) -> Result<(), Fail> {
    let alloc = rt.alloc();
    let mut links = Links::<Alpha, 2>::new(alloc);
    assert!(&rt; links.reserve(6).is_ok());
    let triangle = polygon_edit(alloc, &links, 3)?;
    links.apply(&triangle);
    let groups = carried(alloc, &links)?;
    assert_eq!(&rt; groups.len(), 4);
    assert!(&rt; is_vertex(groups.first(), 1, 6, value(4, -3, 0)));
    assert!(&rt; is_vertex(groups.get(1), 2, 3, value(11, 22, 33)));
    assert!(&rt; is_vertex(groups.get(2), 4, 5, value(3, -4, 0)));
    let face = groups
        .get(3)
        .map(|face| (face.dim, face.darts.len(), face.value));
    assert_eq!(&rt; face, Some((2, 6, None)));
    Ok(())
}

// A triangle of a combinatorial map has the darts 1, 2 and 3, each a vertex by itself. Of the darts with one id only the first
// lives, so no value is shared.
#[test]
fn carries_the_values_of_a_combinatorial_map(rt: HostRuntime) -> Result<(), Fail> {
    let alloc = rt.alloc();
    let mut links = Links::<Beta, 2>::new(alloc);
    assert!(&rt; links.reserve(3).is_ok());
    let triangle = polygon_edit(alloc, &links, 3)?;
    links.apply(&triangle);
    let groups = carried(alloc, &links)?;
    assert_eq!(&rt; groups.len(), 4);
    assert!(&rt; has_value(groups.first(), 1, Some(value(7, -7, 0))));
    assert!(&rt; has_value(groups.get(1), 2, Some(value(1, 2, 3))));
    assert!(&rt; has_value(groups.get(2), 3, Some(value(10, 20, 30))));
    assert!(&rt; has_value(groups.get(3), 1, None));
    Ok(())
}
