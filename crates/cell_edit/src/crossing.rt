ghost use Rattle.std.specs.Prelude.{◌≡◌, ℕ, ◌≤◌, ◌↔◌, slice_index, Contains, IsNone, IfSome, IsTrue};
ghost use Rattle.std.specs.List.Sorted.{IsStrictlyIncreasing};
ghost use Rattle.map_defs.specs.Rows.{links_of, IsLive, IsSound};
ghost use Rattle.map_defs.specs.Walks.{step};
ghost use Rattle.map_defs.specs.Removal.{CommutesAt};
ghost use Rattle.cell_edit.specs.Bridging.{across, LeadsAcross};

use crate::places::place_of;
use link_rows::{Links, Row};
use map_kind::{Dart, Kind, is_generalized};

/// The dart at a link of a dart with this row, if there is one. A link above the dimension is free.
fn linked<K: Kind, const DIM: usize>(
    links: &Links<K, DIM>,
    row: &Row<DIM>,
    link: usize,
    dart: Dart,
) -> Option<Dart>
    requires { (t : ℕ) → slice_index row.now t ≡ links_of links.now.rows t dart }
    ensures free { IsNone result ↔ (links_of links.now.rows link dart ≡ 0) }
    ensures linked { IfSome result (λ other. other ≡ links_of links.now.rows link dart) }
    ensures sound { IsSound K.kind DIM links.now.rows }
    ensures live { IfSome result (IsLive links.now.rows) }
{
    if link > links.dimension() {
        return None;
    }
    Dart::new(row.entry(link))
}

/// The dart at a link of a live dart, which has this row, or the dart itself where the link is free.
fn step<K: Kind, const DIM: usize>(
    links: &Links<K, DIM>,
    row: &Row<DIM>,
    link: usize,
    dart: Dart,
) -> Dart
    requires live { IsLive links.now.rows dart }
    requires row { (t : ℕ) → slice_index row.now t ≡ links_of links.now.rows t dart }
    ensures step { result ≡ step (links_of links.now.rows) link dart }
    ensures live { IsLive links.now.rows result }
{
    linked(links, row, link, dart).unwrap_or(dart)
}

/// The dart to which one step across a cell leads from a live dart, which has this row; none exactly where it comes to a free
/// link of a combinatorial map.
fn across<K: Kind, const DIM: usize>(
    links: &Links<K, DIM>,
    row: &Row<DIM>,
    link: usize,
    beside: usize,
    dart: Dart,
) -> Option<Dart>
    requires live { IsLive links.now.rows dart }
    requires row { (t : ℕ) → slice_index row.now t ≡ links_of links.now.rows t dart }
    ensures free { IsNone result ↔ (across K.kind (links_of links.now.rows) link beside dart ≡ 0) }
    ensures leads { IfSome result (λ other. other ≡ across K.kind (links_of links.now.rows) link beside dart) }
    ensures live { IfSome result (IsLive links.now.rows) }
{
    // A map has links 0 to 8 at most.
    links.see_sound();
    if is_generalized::<K>() {
        let next = step(links, row, beside, dart);
        return Some(step(links, links.live_row(next), link, next));
    }
    let next = linked(links, row, beside, dart)?;
    linked(links, links.live_row(next), link, next)
}

/// Whether the steps along two links lead from each of these darts to the same dart in either order.
pub fn are_commuting<K: Kind, const DIM: usize>(
    links: &Links<K, DIM>,
    one: usize,
    other: usize,
    darts: &[Dart],
) -> bool
    ensures { IsTrue result ↔ ((b : ℕ) → Contains darts.now b → CommutesAt (links_of links.now.rows) one other b) }
{
    // A link above the dimension leads nowhere else.
    if one.max(other) > links.dimension() {
        return true;
    }
    for dart in darts {
        if !is_commuting(links, one, other, *dart) {
            return false;
        }
    }
    true
}

/// Whether the steps along two links of the map lead from a dart to the same dart in either order.
fn is_commuting<K: Kind, const DIM: usize>(
    links: &Links<K, DIM>,
    one: usize,
    other: usize,
    dart: Dart,
) -> bool
    requires one { one ≤ DIM }
    requires other { other ≤ DIM }
    ensures { IsTrue result ↔ CommutesAt (links_of links.now.rows) one other dart }
{
    // A map has links 0 to 8 at most. All links of a dart without a row are free.
    links.see_sound();
    let Some(row) = links.row(dart) else {
        return true;
    };
    two_steps(links, row, other, one, dart) == two_steps(links, row, one, other, dart)
}

/// The dart to which the steps along two links of the map lead, one after the other, from a dart with this row.
fn two_steps<K: Kind, const DIM: usize>(
    links: &Links<K, DIM>,
    row: &Row<DIM>,
    first: usize,
    second: usize,
    dart: Dart,
) -> Dart
    requires row { (t : ℕ) → slice_index row.now t ≡ links_of links.now.rows t dart }
    requires first { first ≤ DIM }
    requires second { second ≤ DIM }
    ensures { result ≡ step (links_of links.now.rows) second (step (links_of links.now.rows) first dart) }
{
    // Links name live darts.
    links.see_sound();
    match Dart::new(row.entry(first)) {
        Some(next) => step(links, links.live_row(next), second, next),
        None => Dart::new(row.entry(second)).unwrap_or(dart),
    }
}

/// Whether a dart is one of these, which are ascending.
pub fn is_among(darts: &[Dart], dart: Dart) -> bool
    requires { IsStrictlyIncreasing darts.now }
    ensures { IsTrue result ↔ Contains darts.now dart }
{
    place_of(darts, dart).is_some()
}

/// The number of the first dart outside a cell on the walk from a dart of it that goes along one link and another in turn, 0
/// where the walk comes to a free link of a combinatorial map. It costs the steps of the walk, times the logarithm of the
/// cell.
fn first_outside<K: Kind, const DIM: usize>(
    links: &Links<K, DIM>,
    link: usize,
    beside: usize,
    cell: &[Dart],
    from: Dart,
) -> u32
    requires ascending { IsStrictlyIncreasing cell.now }
    requires darts { Contains cell.now 0 → ⊥ }
    requires live { IsLive links.now.rows from }
    requires ends { (y : ℕ) × LeadsAcross K.kind (links_of links.now.rows) link beside cell.now from y }
    ensures { LeadsAcross K.kind (links_of links.now.rows) link beside cell.now from result }
{
    // A map has links 0 to 8 at most.
    links.see_sound();
    let mut at = from;
    // The walk comes to no dart twice.
    for _turn in 0..cell.len() + 1 {
        if !is_among(cell, at) {
            return at.number();
        }
        let Some(next) = across(links, links.live_row(at), link, beside, at) else {
            return 0;
        };
        at = next;
    }
    unreachable!()
}

/// The number that `first_outside` answers, of a walk from a dart of the cell, which has this row.
pub(crate) fn first_outside_from_within<K: Kind, const DIM: usize>(
    links: &Links<K, DIM>,
    row: &Row<DIM>,
    link: usize,
    beside: usize,
    cell: &[Dart],
    from: Dart,
) -> u32
    requires ascending { IsStrictlyIncreasing cell.now }
    requires darts { Contains cell.now 0 → ⊥ }
    requires from { Contains cell.now from }
    requires live { IsLive links.now.rows from }
    requires row { (t : ℕ) → slice_index row.now t ≡ links_of links.now.rows t from }
    requires ends { (y : ℕ) × LeadsAcross K.kind (links_of links.now.rows) link beside cell.now from y }
    ensures { LeadsAcross K.kind (links_of links.now.rows) link beside cell.now from result }
{
    let Some(next) = across(links, row, link, beside, from) else {
        return 0;
    };
    first_outside(links, link, beside, cell, next)
}
