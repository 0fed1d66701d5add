ghost use Rattle.std.specs.Prelude.{ℕ, ◌≤◌, ◌↔◌, length, Contains, IfOk, IsTrue};
ghost use Rattle.map_defs.specs.Kind.{alpha};
ghost use Rattle.map_defs.specs.Rows.{links_of, IsLive};
ghost use Rattle.map_defs.specs.Laws.{Laws};
ghost use Rattle.map_defs.specs.Contraction.{IsContractibleAt};
ghost use Rattle.cell_edit.specs.Planning.{PlansContraction, TellsContractible};

use cell_edit::{are_commuting, ending_edit};
use cell_walk::cell;
use link_rows::{Edit, Links};
use map_kind::{Alpha, Dart, Refusal, Refused};
use std::alloc::{AllocError, Global};

/// Whether a dart's cell of dimension `dim` can be contracted: `contract_plan` refuses exactly where not, memory aside. A
/// vertex never can, an edge always. It costs the darts of the cell, for each link of the map, times a logarithm.
pub fn contractible<const DIM: usize>(
    alloc: Global,
    links: &Links<Alpha, DIM>,
    dim: usize,
    dart: Dart,
) -> Result<bool, AllocError>
    requires { dim ≤ DIM }
    ensures { IfOk result (TellsContractible alpha links.now.rows dim dart) }
{
    let darts = cell(alloc, links, dim, dart)?;
    Ok(can_contract(links, dim, &darts))
}

/// The edit that contracts a dart's cell of dimension `dim`. All its darts end, and the link `dim` of each remaining dart
/// that led into the cell leads to the first dart outside it on the walk along links `dim - 1` and `dim` in turn; where
/// that is the dart itself, it is free. The deaths are ascending; no dart is born.
///
/// `NotContractible` comes exactly where the cell cannot be contracted, memory aside: always for a vertex, never for an
/// edge.
///
/// It costs the darts of the cell and the walks across it, for each link of the map, times a logarithm.
pub fn contract_plan<const DIM: usize>(
    alloc: Global,
    links: &Links<Alpha, DIM>,
    dim: usize,
    dart: Dart,
) -> Result<Edit, Refused>
    requires dim { dim ≤ DIM }
    requires dart { IsLive links.now.rows dart }
    requires laws { Laws alpha (links_of links.now.rows) }
    ensures { PlansContraction alpha DIM links.now.rows dim dart result }
{
    // Links name live darts.
    links.see_sound();
    let darts = cell(alloc, links, dim, dart)?;
    if !can_contract(links, dim, &darts) {
        return Err(Refused::Line(Refusal::NotContractible));
    }
    Ok(ending_edit(alloc, links, dim, dim - 1, darts)?)
}

/// Whether the darts of a cell of dimension `dim`, of which there are some, meet the condition of contraction.
fn can_contract<const DIM: usize>(links: &Links<Alpha, DIM>, dim: usize, darts: &[Dart]) -> bool
    requires { 1 ≤ length darts.now }
    ensures meets { IsTrue result ↔ ((b : ℕ) → Contains darts.now b → IsContractibleAt alpha (links_of links.now.rows) dim b) }
    ensures above { IsTrue result → 1 ≤ dim }
{
    match dim {
        0 => false,
        1 => true,
        _ => are_commuting(links, dim - 1, dim - 2, darts),
    }
}
