ghost use Rattle.std.specs.Prelude.{◌≡◌, ◌≢◌, ℕ, ◌+◌, ◌≤◌, ◌<◌, ◌^◌, length, slice_index, vec_len, vec_capacity, Contains, IfOk, OnOk};
ghost use Rattle.map_defs.specs.Kind.{beta};
ghost use Rattle.map_defs.specs.Rows.{links_of, IsLive};
ghost use Rattle.map_defs.specs.Laws.{Laws};
ghost use Rattle.cell_edit.specs.Planning.{PlansVertex};
ghost use Rattle.cell_edit.specs.Stars.{star_of};
ghost use Rattle.cell_edit.specs.Writing.{Appends};
ghost use Rattle.beta_edit.specs.Growing.{Grows, AddsRow};
ghost use Rattle.beta_edit.specs.Splitting.{split_link, IsBehindEntry, IsSideEntry, AreSplitEntries, IsWholeEdge};

use cell_edit::Stars;
use cell_walk::cell;
use link_rows::{BornRows, Change, Edit, Links, Row};
use map_kind::{Beta, Dart};
use std::alloc::{AllocError, Global};

/// The edit that inserts a vertex on the edge of a dart. Each dart of the edge gets a new dart, numbered on from those that
/// were made in the order of the edge's darts; link 1 leads from the dart to its new dart, and on from this to where it led
/// from the dart. On the other sides of the edge the two change places.
///
/// It is always possible: only memory can lack. It costs the darts of the edge, for each link of the map, times a
/// logarithm.
pub fn vertex_plan<const DIM: usize>(
    alloc: Global,
    links: &Links<Beta, DIM>,
    dart: Dart,
) -> Result<Edit, AllocError>
    requires dart { IsLive links.now.rows dart }
    requires laws { Laws beta (links_of links.now.rows) }
    ensures { IfOk result (PlansVertex beta DIM links.now.rows dart) }
{
    // A map has links 0 to 2 at least.
    links.see_sound();
    let darts = cell(alloc, links, 1, dart)?;
    let stars = Stars::new(darts, links.made());
    split_edit(alloc, links, &stars)
}

/// The edit by which the way leads from each dart of an edge over its new dart.
fn split_edit<const DIM: usize>(
    alloc: Global,
    links: &Links<Beta, DIM>,
    stars: &Stars,
) -> Result<Edit, AllocError>
    requires edge { IsWholeEdge links.now.rows stars.now }
    requires laws { Laws beta (links_of links.now.rows) }
    ensures { IfOk result (Grows (links_of links.now.rows) stars.now
        (AreSplitEntries (links_of links.now.rows) (star_of stars.now) (DIM + 1) stars.now.keys)) }
{
    // A map has links 0 to 8 at most.
    links.see_sound();
    let darts = stars.darts();
    // A change for each link from 1 on, and one for the link that leads back to the new dart.
    let mut changes = Vec::with_capacity(alloc, darts.len().saturating_mul(links.dimension() + 1))?;
    let mut born = BornRows::with_room(alloc, stars.first(), links.dimension() + 1, darts.len())?;
    for place in 0..darts.len() {
        let dart = darts[place];
        let row = links.live_row(dart);
        push_behind(links, row, dart, stars.star_at(place), &mut changes);
        push_sides(links, row, stars, dart, &mut changes);
        push_row(row, place, dart, &mut born)?;
    }
    Ok(Edit {
        births: stars.births(),
        deaths: Vec::new(alloc),
        changes,
        born,
    })
}

/// Appends the changes by which the way leads from a dart, which has this row, to `new`, its new dart, and back to this from
/// where it led. There is room for them.
fn push_behind<const DIM: usize>(
    links: &Links<Beta, DIM>,
    row: &Row<DIM>,
    dart: Dart,
    new: Dart,
    changes: &mut Vec<Change>,
)
    requires laws { Laws beta (links_of links.now.rows) }
    requires row { (t : ℕ) → slice_index row.now t ≡ links_of links.now.rows t dart }
    requires room { vec_len changes.old + 2 ≤ vec_capacity changes.old }
    ensures capacity { vec_capacity changes.new ≡ vec_capacity changes.old }
    ensures few { vec_len changes.new ≤ vec_len changes.old + 2 }
    ensures entries { Appends (links_of links.now.rows)
        (IsBehindEntry (links_of links.now.rows) dart new) changes.old.items changes.new.items }
{
    // A map has links 0 to 2 at least.
    links.see_sound();
    let led = row.entry(1);
    changes.push_reserved(Change::new(dart, 1, led, new.number()));
    let Some(next) = Dart::new(led) else {
        return;
    };
    changes.push_reserved(Change::new(next, 0, dart.number(), new.number()));
}

/// Appends the changes by which the links of a dart, which has this row, lead to the new darts on the other sides of the
/// edge. There is room for them.
fn push_sides<const DIM: usize>(
    links: &Links<Beta, DIM>,
    row: &Row<DIM>,
    stars: &Stars,
    dart: Dart,
    changes: &mut Vec<Change>,
)
    requires edge { IsWholeEdge links.now.rows stars.now }
    requires key { Contains stars.now.keys dart }
    requires row { (t : ℕ) → slice_index row.now t ≡ links_of links.now.rows t dart }
    requires room { vec_len changes.old + DIM ≤ vec_capacity changes.old + 1 }
    ensures capacity { vec_capacity changes.new ≡ vec_capacity changes.old }
    ensures few { vec_len changes.new + 1 ≤ vec_len changes.old + DIM }
    ensures entries { Appends (links_of links.now.rows)
        (IsSideEntry (links_of links.now.rows) (star_of stars.now) (DIM + 1) dart) changes.old.items changes.new.items }
{
    // A map has links 0 to 8 at most.
    links.see_sound();
    for link in 2..links.dimension() + 1 {
        let Some(other) = Dart::new(row.entry(link)) else {
            continue;
        };
        let new = stars.star(other);
        changes.push_reserved(Change::new(dart, link, other.number(), new.number()));
    }
}

/// Appends the row of the new dart of a dart, which has this row, at a place: link 0 leads back to the dart, and all others
/// lead where they led from the dart.
fn push_row<const DIM: usize>(
    row: &Row<DIM>,
    place: usize,
    dart: Dart,
    born: &mut BornRows,
) -> Result<(), AllocError>
    requires width { born.old.width ≡ DIM + 1 }
    requires few { born.old.first + length born.old.rows < 2 ^ 32 }
    requires place { place ≡ length born.old.rows }
    ensures { (L : ℕ → ℕ → ℕ) → ((t : ℕ) → slice_index row.now t ≡ L t dart)
        → OnOk result (AddsRow (split_link L dart) born.old born.new) }
{
    // A row has a number for link 0.
    let _ = row.width();
    born.push(row)?;
    born.set(place, 0, dart.number());
    Ok(())
}
