ghost use Rattle.std.specs.Prelude.{◌≡◌, ◌+◌, ◌*◌, ◌≤◌, [], Contains, IfOk, OnOk, vec_capacity};
ghost use Rattle.map_defs.specs.Kind.{beta};
ghost use Rattle.map_defs.specs.Rows.{links_of};
ghost use Rattle.map_defs.specs.Laws.{Laws};
ghost use Rattle.cell_edit.specs.Writing.{WritesEntries, Appends};
ghost use Rattle.cell_edit.specs.Removing.{PlansEnding};
ghost use Rattle.beta_edit.specs.Crossing.{drawn_step};
ghost use Rattle.beta_edit.specs.Drawing.{IsDrawn, CanBeDrawn, IsDrawnEntry, IsDartEntry, IsCellEntry};

use crate::crossing::walk_end_from_within;
use cell_edit::is_among;
use link_rows::{BornRows, Change, Edit, Links};
use map_kind::{Beta, Dart, Kind};
use std::alloc::{AllocError, Global};

/// The edit by which darts end that can: their links become free, and each link of a remaining dart that leads to one of
/// them is drawn across them. The darts are ascending.
///
/// It costs the darts and the walks across them, for each link of the map, times a logarithm.
pub(crate) fn drawn_edit<const DIM: usize>(
    alloc: Global,
    links: &Links<Beta, DIM>,
    beside: Option<usize>,
    darts: Vec<Dart>,
) -> Result<Edit, AllocError>
    requires can { CanBeDrawn links.now.rows beside darts.items }
    requires laws { Laws beta (links_of links.now.rows) }
    ensures { IfOk result (λ edit. PlansEnding beta DIM links.now.rows (Contains darts.items)
        (λ N. IsDrawn (Contains darts.items) (drawn_step (links_of links.now.rows) beside) (links_of links.now.rows) N) edit) }
{
    // Links name live darts.
    links.see_sound();
    let changes = drawn_changes(alloc, links, beside, &darts)?;
    Ok(Edit {
        births: 0,
        deaths: darts,
        changes,
        born: BornRows::none(alloc),
    })
}

/// The changes of the links of darts that end, and of those that are drawn across them.
fn drawn_changes<const DIM: usize>(
    alloc: Global,
    links: &Links<Beta, DIM>,
    beside: Option<usize>,
    darts: &[Dart],
) -> Result<Vec<Change>, AllocError>
    requires can { CanBeDrawn links.now.rows beside darts.now }
    requires laws { Laws beta (links_of links.now.rows) }
    ensures { IfOk result (λ changes. WritesEntries (links_of links.now.rows)
        (IsCellEntry (links_of links.now.rows) beside darts.now (DIM + 1) darts.now) changes.items) }
{
    let mut changes = room_for_ways(alloc, darts.len(), links.dimension())?;
    for dart in darts {
        push_dart(links, beside, darts, *dart, &mut changes)?;
    }
    Ok(changes)
}

/// No changes yet, with room for two of each link of so many darts of a map of dimension `dim`: of the link, and of the one
/// that leads back along it.
fn room_for_ways(alloc: Global, darts: usize, dim: usize) -> Result<Vec<Change>, AllocError>
    requires { dim ≤ 8 }
    ensures items { IfOk result (λ changes. changes.items ≡ []) }
    ensures room { IfOk result (λ changes. darts * (2 * dim + 2) ≤ vec_capacity changes) }
{
    Vec::with_capacity(alloc, darts.saturating_mul(2 * dim + 2))
}

/// Appends the changes of one dart that ends: those of its links, and those of the links that lead to it.
fn push_dart<const DIM: usize>(
    links: &Links<Beta, DIM>,
    beside: Option<usize>,
    darts: &[Dart],
    dart: Dart,
    changes: &mut Vec<Change>,
) -> Result<(), AllocError>
    requires can { CanBeDrawn links.now.rows beside darts.now }
    requires laws { Laws beta (links_of links.now.rows) }
    requires dart { Contains darts.now dart }
    ensures { OnOk result (Appends (links_of links.now.rows)
        (IsDartEntry (links_of links.now.rows) beside darts.now (DIM + 1) dart) changes.old.items changes.new.items) }
{
    for link in 0..links.dimension() + 1 {
        push_link(links, beside, darts, dart, link, changes)?;
    }
    Ok(())
}

/// Appends the changes of one link of a dart that ends, if the link is not free: it becomes free, and where it leads to a
/// remaining dart, the link that leads back is drawn across.
fn push_link<const DIM: usize>(
    links: &Links<Beta, DIM>,
    beside: Option<usize>,
    darts: &[Dart],
    dart: Dart,
    link: usize,
    changes: &mut Vec<Change>,
) -> Result<(), AllocError>
    requires can { CanBeDrawn links.now.rows beside darts.now }
    requires laws { Laws beta (links_of links.now.rows) }
    requires dart { Contains darts.now dart }
    requires link { link ≤ DIM }
    ensures { OnOk result (Appends (links_of links.now.rows)
        (IsDrawnEntry (links_of links.now.rows) beside darts.now dart link) changes.old.items changes.new.items) }
{
    // A map has links 0 to 8 at most.
    links.see_sound();
    let Some(other) = links.link(dart, link) else {
        return Ok(());
    };
    changes.push(Change::new(dart, link, other.number(), 0))?;
    if is_among(darts, other) {
        return Ok(());
    }
    let back = Beta::inverse(link);
    let Some(end) = walk_end_from_within(links, back, beside, darts, dart) else {
        // Each walk from a remaining dart ends.
        unreachable!()
    };
    changes.push(Change::new(other, back, dart.number(), end))?;
    Ok(())
}
