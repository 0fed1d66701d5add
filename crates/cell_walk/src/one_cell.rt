ghost use Rattle.std.specs.Prelude.{ℕ, ◌≤◌, ◌↔◌, Contains, IfOk, IsTrue};
ghost use Rattle.std.specs.List.Sorted.{IsStrictlyIncreasing};
ghost use Rattle.map_defs.specs.Rows.{links_of};
ghost use Rattle.map_defs.specs.Cells.{InCell, NamesCell};
ghost use Rattle.cell_walk.specs.CellLists.{AreCellsOf};

use crate::around::CellWalk;
use flat_lists::Lists;
use link_rows::Links;
use map_kind::{Dart, Kind};
use std::alloc::{AllocError, Global};

/// The darts of a dart's cell of dimension `dim`, ascending. It costs the size of the cell times a logarithm.
pub fn cell<K: Kind, const DIM: usize>(
    alloc: Global,
    links: &Links<K, DIM>,
    dim: usize,
    dart: Dart,
) -> Result<Vec<Dart>, AllocError>
    requires { dim ≤ DIM }
    ensures members { IfOk result (λ cell. (y : ℕ) → Contains cell.items y ↔ InCell K.kind (links_of links.now.rows) dim dart y) }
    ensures ascending { IfOk result (λ cell. IsStrictlyIncreasing cell.items) }
{
    CellWalk::new(alloc, links, dim)?.cell(alloc, links, dart)
}

/// The cells of dimension `dim` of these darts, in the same order: the darts of each, ascending. It costs the sizes of the
/// cells times a logarithm. How walks go around such cells is found out once.
pub fn cells_of<K: Kind, const DIM: usize>(
    alloc: Global,
    links: &Links<K, DIM>,
    dim: usize,
    darts: &[Dart],
) -> Result<Lists<Dart>, AllocError>
    requires { dim ≤ DIM }
    ensures { IfOk result (λ cells. AreCellsOf K.kind (links_of links.now.rows) dim darts.now cells) }
{
    let walk = CellWalk::new(alloc, links, dim)?;
    let mut cells = Lists::new(alloc);
    for dart in darts {
        cells.push(&walk.cell(alloc, links, *dart)?)?;
    }
    Ok(cells)
}

/// Whether two darts lie in the same cell of dimension `dim`. It costs the size of the first dart's cell times a
/// logarithm.
pub fn same<K: Kind, const DIM: usize>(
    alloc: Global,
    links: &Links<K, DIM>,
    dim: usize,
    one: Dart,
    other: Dart,
) -> Result<bool, AllocError>
    requires { dim ≤ DIM }
    ensures { IfOk result (λ same. IsTrue same ↔ InCell K.kind (links_of links.now.rows) dim one other) }
{
    Ok(cell(alloc, links, dim, one)?.contains(&other))
}

/// The least dart of a dart's cell of dimension `dim`, by which the cell is named. It costs the size of the cell times a
/// logarithm.
pub fn least<K: Kind, const DIM: usize>(
    alloc: Global,
    links: &Links<K, DIM>,
    dim: usize,
    dart: Dart,
) -> Result<Dart, AllocError>
    requires { dim ≤ DIM }
    ensures member { IfOk result (λ least. InCell K.kind (links_of links.now.rows) dim dart least) }
    ensures names { IfOk result (λ least. NamesCell K.kind (links_of links.now.rows) dim least) }
{
    Ok(cell(alloc, links, dim, dart)?[0])
}
