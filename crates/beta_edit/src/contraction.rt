ghost use Rattle.std.specs.Prelude.{◌≡◌, ℕ, ◌≤◌, Contains, IfOk};
ghost use Rattle.std.specs.List.Sorted.{IsStrictlyIncreasing};
ghost use Rattle.map_defs.specs.Kind.{beta};
ghost use Rattle.map_defs.specs.Rows.{links_of, IsLive};
ghost use Rattle.map_defs.specs.Laws.{Laws};
ghost use Rattle.cell_edit.specs.Planning.{PlansContraction, TellsContractible};
ghost use Rattle.beta_edit.specs.Crossing.{IsCellOf, beside_of};

use crate::apart::stays_apart;
use crate::drawing::drawn_edit;
use crate::flat::{are_flat, are_two_sided};
use cell_edit::{are_commuting, ending_edit};
use cell_walk::cell;
use link_rows::{Edit, Links};
use map_kind::{Beta, Dart, Refusal, Refused};
use std::alloc::{AllocError, Global};

/// Whether a dart's cell of dimension `dim` can be contracted: `contract_plan` refuses exactly where not, memory aside. A
/// vertex never can, an edge always. It costs the darts of the cell and the walks across it, for each link of the map, times
/// a logarithm.
pub fn contractible<const DIM: usize>(
    alloc: Global,
    links: &Links<Beta, DIM>,
    dim: usize,
    dart: Dart,
) -> Result<bool, AllocError>
    requires dim { dim ≤ DIM }
    requires laws { Laws beta (links_of links.now.rows) }
    ensures { IfOk result (TellsContractible beta links.now.rows dim dart) }
{
    // The number of a dart is not 0.
    let _ = dart.number();
    let darts = cell(alloc, links, dim, dart)?;
    Ok(can_contract(links, dim, &darts))
}

/// The edit that contracts a dart's cell of dimension `dim`. All its darts end, and the link `dim` of each remaining dart
/// that led into the cell leads to the first dart outside it on a walk, and is free where the walk comes to a free link. The
/// walk goes along links `dim - 1` and `dim` in turn, along links 0 and 2 across a face, and along link 1 alone across an
/// edge, where link 0 leads back where link 1 leads on. The deaths are ascending; no dart is born.
///
/// `NotContractible` comes exactly where the cell cannot be contracted, memory aside: always for a vertex, never for an
/// edge.
///
/// It costs the darts of the cell and the walks across it, for each link of the map, times a logarithm.
pub fn contract_plan<const DIM: usize>(
    alloc: Global,
    links: &Links<Beta, DIM>,
    dim: usize,
    dart: Dart,
) -> Result<Edit, Refused>
    requires dim { dim ≤ DIM }
    requires dart { IsLive links.now.rows dart }
    requires laws { Laws beta (links_of links.now.rows) }
    ensures { PlansContraction beta DIM links.now.rows dim dart result }
{
    // Links name live darts.
    links.see_sound();
    let darts = cell(alloc, links, dim, dart)?;
    if !can_contract(links, dim, &darts) {
        return Err(Refused::Line(Refusal::NotContractible));
    }
    match dim {
        1 => Ok(drawn_edit(alloc, links, None, darts)?),
        _ => Ok(ending_edit(alloc, links, dim, link_beside(dim), darts)?),
    }
}

/// The link beside link `dim` along which the walk across a contracted cell goes.
fn link_beside(dim: usize) -> usize
    requires { 2 ≤ dim }
    ensures { result ≡ beside_of dim }
{
    if dim == 2 { 0 } else { dim - 1 }
}

/// Whether a cell of dimension `dim` with these darts, ascending, can be contracted.
fn can_contract<const DIM: usize>(links: &Links<Beta, DIM>, dim: usize, darts: &[Dart]) -> bool
    requires dim { dim ≤ DIM }
    requires ascending { IsStrictlyIncreasing darts.now }
    requires darts { Contains darts.now 0 → ⊥ }
    requires laws { Laws beta (links_of links.now.rows) }
    ensures { (d : ℕ) → IsCellOf (links_of links.now.rows) dim darts.now d → TellsContractible beta links.now.rows dim d result }
{
    match dim {
        0 => false,
        1 => true,
        2 => are_two_sided(links, darts) && stays_apart(links, 2, Some(0), darts),
        3 => are_flat(links, darts) && stays_apart(links, 3, Some(2), darts),
        _ => {
            are_commuting(links, dim - 1, dim - 2, darts)
                && stays_apart(links, dim, Some(dim - 1), darts)
        }
    }
}
