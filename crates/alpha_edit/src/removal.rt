ghost use Rattle.std.specs.Prelude.{◌≤◌, IfOk};
ghost use Rattle.map_defs.specs.Kind.{alpha};
ghost use Rattle.map_defs.specs.Rows.{links_of, IsLive};
ghost use Rattle.map_defs.specs.Laws.{Laws};
ghost use Rattle.cell_edit.specs.Planning.{PlansRemoval, TellsRemovable};

use cell_edit::{are_commuting, ending_edit};
use cell_walk::cell;
use link_rows::{Edit, Links};
use map_kind::{Alpha, Dart, Refusal, Refused};
use std::alloc::{AllocError, Global};

/// Whether a dart's cell of dimension `dim` can be removed: `remove_plan` refuses exactly where not, memory aside. It costs
/// the darts of the cell, for each link of the map, times a logarithm.
pub fn removable<const DIM: usize>(
    alloc: Global,
    links: &Links<Alpha, DIM>,
    dim: usize,
    dart: Dart,
) -> Result<bool, AllocError>
    requires { dim ≤ DIM }
    ensures { IfOk result (TellsRemovable alpha links.now.rows dim dart) }
{
    // A map has links 0 to 8 at most.
    links.see_sound();
    let darts = cell(alloc, links, dim, dart)?;
    Ok(are_commuting(links, dim + 1, dim + 2, &darts))
}

/// The edit that removes a dart's cell of dimension `dim`. All its darts end, and the link `dim` of each remaining dart
/// that led into the cell leads to the first dart outside it on the walk along links `dim + 1` and `dim` in turn; where
/// that is the dart itself, it is free. The deaths are ascending; no dart is born.
///
/// `NotRemovable` comes exactly where the cell cannot be removed, memory aside.
///
/// It costs the darts of the cell and the walks across it, for each link of the map, times a logarithm.
pub fn remove_plan<const DIM: usize>(
    alloc: Global,
    links: &Links<Alpha, DIM>,
    dim: usize,
    dart: Dart,
) -> Result<Edit, Refused>
    requires dim { dim ≤ DIM }
    requires dart { IsLive links.now.rows dart }
    requires laws { Laws alpha (links_of links.now.rows) }
    ensures { PlansRemoval alpha DIM links.now.rows dim dart result }
{
    // A map has links 0 to 8 at most, and they name live darts.
    links.see_sound();
    let darts = cell(alloc, links, dim, dart)?;
    if !are_commuting(links, dim + 1, dim + 2, &darts) {
        return Err(Refused::Line(Refusal::NotRemovable));
    }
    Ok(ending_edit(alloc, links, dim, dim + 1, darts)?)
}
