ghost use Rattle.std.specs.Prelude.{◌≡◌, ◌≢◌, ℕ, ◌+◌, ◌≤◌, ◌<◌, ◌^◌, length, slice_index, vec_len, vec_capacity, Contains, IfOk, OnOk};
ghost use Rattle.map_defs.specs.Kind.{beta};
ghost use Rattle.map_defs.specs.Rows.{links_of};
ghost use Rattle.map_defs.specs.Laws.{Laws};
ghost use Rattle.cell_edit.specs.Stars.{star_of};
ghost use Rattle.cell_edit.specs.Writing.{Appends};
ghost use Rattle.beta_edit.specs.Growing.{CanGrow, Grows, AddsRow};
ghost use Rattle.beta_edit.specs.Cutting.{cut_link, IsAroundEntry, AreCutEntries, IsTurn, AreTurns};

use cell_edit::Stars;
use link_rows::{BornRows, Change, Edit, Links, Row};
use map_kind::{Beta, Dart};
use sewing::Triple;
use std::alloc::{AllocError, Global};

/// The edit by which the way into each corner leads over its new dart into the corner to which it turns.
pub(crate) fn cut_edit<const DIM: usize>(
    alloc: Global,
    links: &Links<Beta, DIM>,
    stars: &Stars,
    pairs: &[Triple],
) -> Result<Edit, AllocError>
    requires turns { AreTurns links.now.rows stars.now pairs.now }
    requires laws { Laws beta (links_of links.now.rows) }
    ensures { IfOk result (Grows (links_of links.now.rows) stars.now
        (AreCutEntries (links_of links.now.rows) (star_of stars.now) pairs.now)) }
{
    let births = stars.births();
    let mut changes = Vec::with_capacity(alloc, 2 * births as usize)?;
    let mut born = BornRows::with_room(
        alloc,
        stars.first(),
        links.dimension() + 1,
        births as usize,
    )?;
    // The pairs tell the corners in the order of the darts.
    let mut place = 0;
    for pair in pairs {
        if pair.t != 0 {
            continue;
        }
        push_corner(
            links,
            stars,
            stars.star_at(place),
            pair.x,
            pair.y,
            &mut changes,
            &mut born,
        )?;
        place += 1;
    }
    Ok(Edit {
        births,
        deaths: Vec::new(alloc),
        changes,
        born,
    })
}

/// Appends the changes by which the way into a corner leads to `new`, its new dart, and back to this from where link 1 leads
/// from another dart, and the row by which the new dart leads there. There is room for the changes.
fn push_corner<const DIM: usize>(
    links: &Links<Beta, DIM>,
    stars: &Stars,
    new: Dart,
    corner: Dart,
    other: Dart,
    changes: &mut Vec<Change>,
    born: &mut BornRows,
) -> Result<(), AllocError>
    requires turn { IsTurn (links_of links.now.rows) stars.now.keys corner other }
    requires grow { CanGrow links.now.rows stars.now }
    requires laws { Laws beta (links_of links.now.rows) }
    requires room { vec_len changes.old + 2 ≤ vec_capacity changes.old }
    requires width { born.old.width ≡ DIM + 1 }
    requires few { born.old.first + length born.old.rows < 2 ^ 32 }
    ensures capacity { vec_capacity changes.new ≡ vec_capacity changes.old }
    ensures long { OnOk result (vec_len changes.new ≡ vec_len changes.old + 2) }
    ensures entries { OnOk result (Appends (links_of links.now.rows)
        (IsAroundEntry (links_of links.now.rows) new corner other) changes.old.items changes.new.items) }
    ensures row { OnOk result (AddsRow (cut_link (links_of links.now.rows) (star_of stars.now) corner other) born.old born.new) }
{
    // A map has links 0 to 2 at least.
    links.see_sound();
    let before = Dart::new(links.live_row(corner).entry(0)).unwrap();
    let turned = links.live_row(other);
    let behind = Dart::new(turned.entry(1)).unwrap();
    changes.push_reserved(Change::new(before, 1, corner.number(), new.number()));
    changes.push_reserved(Change::new(behind, 0, other.number(), new.number()));
    let mut row = Row::zeros();
    row.set(0, before.number());
    row.set(1, behind.number());
    row.set(2, stars.star(behind).number());
    set_along(stars, turned, &mut row);
    born.push(&row)
}

/// Puts at the links from 3 upwards of a row the new darts of those at the links of another.
fn set_along<const DIM: usize>(stars: &Stars, from: &Row<DIM>, row: &mut Row<DIM>)
    requires copies { (t : ℕ) → 3 ≤ t → slice_index from.now t ≢ 0 → Contains stars.now.keys (slice_index from.now t) }
    requires nothing { star_of stars.now 0 ≡ 0 }
    requires wide { (t : ℕ) → DIM < t → slice_index from.now t ≡ 0 }
    requires free { (t : ℕ) → 3 ≤ t → slice_index row.old t ≡ 0 }
    ensures low { (t : ℕ) → t < 3 → slice_index row.new t ≡ slice_index row.old t }
    ensures along { (t : ℕ) → 3 ≤ t → slice_index row.new t ≡ star_of stars.now (slice_index from.now t) }
{
    for link in 3..row.width() {
        let Some(copy) = Dart::new(from.entry(link)) else {
            continue;
        };
        row.set(link, stars.star(copy).number());
    }
}
