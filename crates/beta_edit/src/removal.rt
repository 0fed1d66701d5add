ghost use Rattle.std.specs.Prelude.{ℕ, ◌≤◌, Contains, IfOk};
ghost use Rattle.std.specs.List.Sorted.{IsStrictlyIncreasing};
ghost use Rattle.map_defs.specs.Kind.{beta};
ghost use Rattle.map_defs.specs.Rows.{links_of, IsLive};
ghost use Rattle.map_defs.specs.Laws.{Laws};
ghost use Rattle.cell_edit.specs.Planning.{PlansRemoval, TellsRemovable};
ghost use Rattle.beta_edit.specs.Crossing.{IsCellOf};

use crate::apart::{sides_stay_apart, stays_apart};
use crate::drawing::drawn_edit;
use crate::flat::are_flat;
use cell_edit::{are_commuting, ending_edit};
use cell_walk::cell;
use link_rows::{Edit, Links};
use map_kind::{Beta, Dart, Refusal, Refused};
use std::alloc::{AllocError, Global};

/// Whether a dart's cell of dimension `dim` can be removed: `remove_plan` refuses exactly where not, memory aside. It costs
/// the darts of the cell and the walks across it, for each link of the map, times a logarithm.
pub fn removable<const DIM: usize>(
    alloc: Global,
    links: &Links<Beta, DIM>,
    dim: usize,
    dart: Dart,
) -> Result<bool, AllocError>
    requires dim { dim ≤ DIM }
    requires laws { Laws beta (links_of links.now.rows) }
    ensures { IfOk result (TellsRemovable beta links.now.rows dim dart) }
{
    // The number of a dart is not 0.
    let _ = dart.number();
    let darts = cell(alloc, links, dim, dart)?;
    Ok(can_remove(links, dim, &darts))
}

/// The edit that removes a dart's cell of dimension `dim`. All its darts end. From dimension 1 on, the link `dim` of each
/// remaining dart that led into the cell leads to the first dart outside it on the walk along links `dim + 1` and `dim` in
/// turn, and is free where the walk comes to a free link; without an edge, link 0 leads back where link 1 leads on. Without a
/// vertex, a remaining dart takes the links of the last dart of its run along link 1 into the vertex. The deaths are
/// ascending; no dart is born.
///
/// `NotRemovable` comes exactly where the cell cannot be removed, memory aside.
///
/// It costs the darts of the cell and the walks across it, for each link of the map, times a logarithm.
pub fn remove_plan<const DIM: usize>(
    alloc: Global,
    links: &Links<Beta, DIM>,
    dim: usize,
    dart: Dart,
) -> Result<Edit, Refused>
    requires dim { dim ≤ DIM }
    requires dart { IsLive links.now.rows dart }
    requires laws { Laws beta (links_of links.now.rows) }
    ensures { PlansRemoval beta DIM links.now.rows dim dart result }
{
    // Links name live darts.
    links.see_sound();
    let darts = cell(alloc, links, dim, dart)?;
    if !can_remove(links, dim, &darts) {
        return Err(Refused::Line(Refusal::NotRemovable));
    }
    match dim {
        0 => Ok(drawn_edit(alloc, links, None, darts)?),
        1 => Ok(drawn_edit(alloc, links, Some(2), darts)?),
        _ => Ok(ending_edit(alloc, links, dim, dim + 1, darts)?),
    }
}

/// Whether a cell of dimension `dim` with these darts, ascending, can be removed.
fn can_remove<const DIM: usize>(links: &Links<Beta, DIM>, dim: usize, darts: &[Dart]) -> bool
    requires dim { dim ≤ DIM }
    requires ascending { IsStrictlyIncreasing darts.now }
    requires darts { Contains darts.now 0 → ⊥ }
    requires laws { Laws beta (links_of links.now.rows) }
    ensures { (d : ℕ) → IsCellOf (links_of links.now.rows) dim darts.now d → TellsRemovable beta links.now.rows dim d result }
{
    // A map has links 0 to 8 at most.
    links.see_sound();
    match dim {
        0 => are_flat(links, darts) && sides_stay_apart(links, darts),
        1 => are_commuting(links, 2, 3, darts),
        _ => {
            are_commuting(links, dim + 1, dim + 2, darts)
                && stays_apart(links, dim, Some(dim + 1), darts)
        }
    }
}
