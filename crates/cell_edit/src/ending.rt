ghost use Rattle.std.specs.Prelude.{◌≡◌, ℕ, ◌+◌, ◌≤◌, ◌<◌, slice_index, Contains, IfOk, vec_len, vec_capacity};
ghost use Rattle.map_defs.specs.Rows.{links_of};
ghost use Rattle.map_defs.specs.Laws.{Laws};
ghost use Rattle.map_defs.specs.Removal.{Lands, IsBridged};
ghost use Rattle.cell_edit.specs.Writing.{WritesEntries, Appends};
ghost use Rattle.cell_edit.specs.Bridging.{across, CanEnd, IsEndingEntry, IsBridgeEntry, IsDartEntry, IsCellEntry};
ghost use Rattle.cell_edit.specs.Removing.{PlansEnding};

use crate::crossing::{first_outside_from_within, is_among};
use crate::room::room_for_changes;
use link_rows::{BornRows, Change, Edit, Links, Row};
use map_kind::{Dart, Kind, is_generalized};
use std::alloc::{AllocError, Global};

/// The edit by which darts end that can: their links become free, and a link of each remaining dart that leads to one of
/// them is drawn across them, along the link beside and the link itself in turn. The darts are ascending.
///
/// It costs the darts and the walks across them, for each link of the map, times a logarithm.
pub fn ending_edit<K: Kind, const DIM: usize>(
    alloc: Global,
    links: &Links<K, DIM>,
    link: usize,
    beside: usize,
    darts: Vec<Dart>,
) -> Result<Edit, AllocError>
    requires link { link ≤ DIM }
    requires can { CanEnd K.kind links.now.rows link beside darts.items }
    requires laws { Laws K.kind (links_of links.now.rows) }
    ensures { IfOk result (λ edit. PlansEnding K.kind DIM links.now.rows (Contains darts.items)
        (λ N. IsBridged K.kind link (Contains darts.items) (across K.kind (links_of links.now.rows) link beside) (links_of links.now.rows) N) edit) }
{
    // Links name live darts.
    links.see_sound();
    let changes = ending_changes(alloc, links, link, beside, &darts)?;
    Ok(Edit {
        births: 0,
        deaths: darts,
        changes,
        born: BornRows::none(alloc),
    })
}

/// The changes of the links of darts that end, and of those that are drawn across them.
fn ending_changes<K: Kind, const DIM: usize>(
    alloc: Global,
    links: &Links<K, DIM>,
    link: usize,
    beside: usize,
    darts: &[Dart],
) -> Result<Vec<Change>, AllocError>
    requires link { link ≤ DIM }
    requires can { CanEnd K.kind links.now.rows link beside darts.now }
    requires laws { Laws K.kind (links_of links.now.rows) }
    ensures { IfOk result (λ changes. WritesEntries (links_of links.now.rows)
        (IsCellEntry K.kind (links_of links.now.rows) link beside (DIM + 1) darts.now darts.now) changes.items) }
{
    let mut changes = room_for_changes(alloc, darts.len(), links.dimension())?;
    for dart in darts {
        push_dart(links, link, beside, darts, *dart, &mut changes);
    }
    Ok(changes)
}

/// Appends the changes of one dart that ends: those of its links, and that of the link that leads to it. There is room for
/// them.
fn push_dart<K: Kind, const DIM: usize>(
    links: &Links<K, DIM>,
    link: usize,
    beside: usize,
    darts: &[Dart],
    dart: Dart,
    changes: &mut Vec<Change>,
)
    requires link { link ≤ DIM }
    requires can { CanEnd K.kind links.now.rows link beside darts.now }
    requires laws { Laws K.kind (links_of links.now.rows) }
    requires key { Contains darts.now dart }
    requires room { vec_len changes.old + (DIM + 2) ≤ vec_capacity changes.old }
    ensures capacity { vec_capacity changes.new ≡ vec_capacity changes.old }
    ensures few { vec_len changes.new ≤ vec_len changes.old + (DIM + 2) }
    ensures entries { Appends (links_of links.now.rows)
        (IsDartEntry K.kind (links_of links.now.rows) link beside (DIM + 1) darts.now dart) changes.old.items changes.new.items }
{
    // A map has links 0 to 8 at most.
    links.see_sound();
    let row = links.live_row(dart);
    push_links(links, row, dart, changes);
    push_bridge(links, row, link, beside, darts, dart, changes);
}

/// Appends the changes by which each link of a dart with this row becomes free that is not. There is room for them.
fn push_links<K: Kind, const DIM: usize>(
    links: &Links<K, DIM>,
    row: &Row<DIM>,
    dart: Dart,
    changes: &mut Vec<Change>,
)
    requires row { (t : ℕ) → slice_index row.now t ≡ links_of links.now.rows t dart }
    requires room { vec_len changes.old + (DIM + 1) ≤ vec_capacity changes.old }
    ensures capacity { vec_capacity changes.new ≡ vec_capacity changes.old }
    ensures few { vec_len changes.new ≤ vec_len changes.old + (DIM + 1) }
    ensures entries { Appends (links_of links.now.rows)
        (IsEndingEntry (links_of links.now.rows) (DIM + 1) dart) changes.old.items changes.new.items }
{
    for link in 0..links.dimension() + 1 {
        let old = row.entry(link);
        if old == 0 {
            continue;
        }
        changes.push_reserved(Change::new(dart, link, old, 0));
    }
}

/// Appends the change of the link that leads to a dart that ends, which has this row, where it comes from a remaining dart.
/// There is room for it.
fn push_bridge<K: Kind, const DIM: usize>(
    links: &Links<K, DIM>,
    row: &Row<DIM>,
    link: usize,
    beside: usize,
    darts: &[Dart],
    dart: Dart,
    changes: &mut Vec<Change>,
)
    requires link { link ≤ DIM }
    requires can { CanEnd K.kind links.now.rows link beside darts.now }
    requires laws { Laws K.kind (links_of links.now.rows) }
    requires key { Contains darts.now dart }
    requires row { (t : ℕ) → slice_index row.now t ≡ links_of links.now.rows t dart }
    requires room { vec_len changes.old < vec_capacity changes.old }
    ensures capacity { vec_capacity changes.new ≡ vec_capacity changes.old }
    ensures few { vec_len changes.new ≤ vec_len changes.old + 1 }
    ensures entries { Appends (links_of links.now.rows)
        (IsBridgeEntry K.kind (links_of links.now.rows) link beside darts.now dart) changes.old.items changes.new.items }
{
    // Links name live darts.
    links.see_sound();
    let Some(remaining) = Dart::new(row.entry(link)) else {
        return;
    };
    if is_among(darts, remaining) {
        return;
    }
    let end = first_outside_from_within(links, row, link, beside, darts, dart);
    changes.push_reserved(Change::new(
        remaining,
        link,
        dart.number(),
        landing::<K>(remaining, end),
    ));
}

/// The new link of a dart whose walk ends at the dart of a number: in a generalized map 0, for free, where that is the dart
/// itself.
fn landing<K: Kind>(dart: Dart, end: u32) -> u32
    ensures { Lands K.kind dart end result }
{
    if is_generalized::<K>() && end == dart.number() {
        return 0;
    }
    end
}
