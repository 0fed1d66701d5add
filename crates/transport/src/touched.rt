ghost use Rattle.std.specs.Prelude.{◌≡◌, ℕ, ◌↔◌, ◌≤◌, ◌<◌, length, IsTrue, IfOk, OnOk, Contains};
ghost use Rattle.map_defs.specs.Rows.{links_of, IsSound};
ghost use Rattle.map_defs.specs.Cells.{InCell};
ghost use Rattle.transport.specs.Pieces.{AreBareCells};
ghost use Rattle.transport.specs.Found.{IsInSome, IsCellAdded, IsCellAddedAt, IsCellThere};

use crate::by_id::FEW;
use crate::group::Group;
use crate::marks::Marks;
use crate::wanted::Wanted;
use cell_walk::CellWalk;
use link_rows::Links;
use map_kind::{Dart, Kind};
use std::alloc::{AllocError, Global};

/// The cells of dimension `dim` that hold a touched dart, each once and without a value yet, ascending by their least
/// darts. It costs the touched darts and these cells times a logarithm.
pub fn touched_cells<K: Kind, const DIM: usize>(
    alloc: Global,
    links: &Links<K, DIM>,
    dim: usize,
    touched: &[Dart],
) -> Result<Vec<Group>, AllocError>
    requires dim { dim ≤ DIM }
    requires sound { IsSound K.kind DIM links.now.rows }
    ensures { IfOk result (λ cells.
        AreBareCells (InCell K.kind (links_of links.now.rows) dim) dim touched.now cells.items) }
{
    let walk = CellWalk::new(alloc, links, dim)?;
    if touched.len() <= FEW {
        return cells_of_few(alloc, links, &walk, dim, touched);
    }
    let (first, last) = ends_of(touched);
    if are_near(first, last, touched.len()) {
        return cells_of_near(alloc, links, &walk, dim, touched, first, last);
    }
    cells_of_many(alloc, links, &walk, dim, touched)
}

/// The least and the greatest number of some darts.
fn ends_of(darts: &[Dart]) -> (u32, u32)
    ensures some { 0 < result.0 }
    ensures within { (d : ℕ) → Contains darts.now d → (result.0 ≤ d) × (d ≤ result.1) }
{
    let mut first = u32::MAX;
    let mut last = 0;
    for dart in darts {
        first = first.min(dart.number());
        last = last.max(dart.number());
    }
    (first, last)
}

/// Whether there are few numbers between these two for so many darts, so that a mark for each of the numbers takes no more memory
/// than a list of the darts.
fn are_near(first: u32, last: u32, darts: usize) -> bool {
    (last.saturating_sub(first) as usize) / 4 < darts
}

/// Finds the cells of touched darts whose numbers lie near each other, from the number `first` to the number `last`: they are
/// marked, and those of each cell that is found are marked no more.
fn cells_of_near<K: Kind, const DIM: usize>(
    alloc: Global,
    links: &Links<K, DIM>,
    walk: &CellWalk<K, DIM>,
    dim: usize,
    touched: &[Dart],
    first: u32,
    last: u32,
) -> Result<Vec<Group>, AllocError>
    requires walk { walk.now ≡ dim }
    requires sound { IsSound K.kind DIM links.now.rows }
    requires first { 0 < first }
    requires within { (d : ℕ) → Contains touched.now d → (first ≤ d) × (d ≤ last) }
    ensures { IfOk result (λ cells.
        AreBareCells (InCell K.kind (links_of links.now.rows) dim) dim touched.now cells.items) }
{
    let mut marks = Marks::new(alloc, first, last)?;
    marks.put_all(touched, true);
    let mut cells = Vec::new(alloc);
    for place in 0..marks.len() {
        add_cell_at(alloc, links, walk, dim, place, &mut marks, &mut cells)?;
    }
    cells.sort_unstable_by_key(|cell| cell.least());
    Ok(cells)
}

/// Adds the cell of the dart at a place, if it is marked.
fn add_cell_at<K: Kind, const DIM: usize>(
    alloc: Global,
    links: &Links<K, DIM>,
    walk: &CellWalk<K, DIM>,
    dim: usize,
    place: usize,
    marks: &mut Marks,
    cells: &mut Vec<Group>,
) -> Result<(), AllocError>
    requires walk { walk.now ≡ dim }
    requires place { place < length marks.old.marks }
    ensures { OnOk result (IsCellAddedAt (InCell K.kind (links_of links.now.rows) dim) dim place marks.old marks.new
        cells.old.items cells.new.items) }
{
    let Some(dart) = marks.marked(place) else {
        return Ok(());
    };
    let darts = walk.cell(alloc, links, dart)?;
    marks.put_all(&darts, false);
    cells.push(Group {
        dim,
        darts,
        value: None,
    })?;
    Ok(())
}

/// Does so for few touched darts: each is looked for in the cells that are found, which takes no further memory.
fn cells_of_few<K: Kind, const DIM: usize>(
    alloc: Global,
    links: &Links<K, DIM>,
    walk: &CellWalk<K, DIM>,
    dim: usize,
    touched: &[Dart],
) -> Result<Vec<Group>, AllocError>
    requires walk { walk.now ≡ dim }
    requires sound { IsSound K.kind DIM links.now.rows }
    ensures { IfOk result (λ cells.
        AreBareCells (InCell K.kind (links_of links.now.rows) dim) dim touched.now cells.items) }
{
    let mut cells = Vec::new(alloc);
    for dart in touched {
        add_cell_of(alloc, links, walk, dim, *dart, &mut cells)?;
    }
    cells.sort_unstable_by_key(|cell| cell.least());
    Ok(cells)
}

/// Adds the cell of a dart, unless one of the cells holds the dart.
fn add_cell_of<K: Kind, const DIM: usize>(
    alloc: Global,
    links: &Links<K, DIM>,
    walk: &CellWalk<K, DIM>,
    dim: usize,
    dart: Dart,
    cells: &mut Vec<Group>,
) -> Result<(), AllocError>
    requires walk { walk.now ≡ dim }
    ensures { OnOk result (IsCellThere (InCell K.kind (links_of links.now.rows) dim) dim dart cells.old.items
        cells.new.items) }
{
    if is_in_some(cells, dart) {
        return Ok(());
    }
    let darts = walk.cell(alloc, links, dart)?;
    cells.push(Group {
        dim,
        darts,
        value: None,
    })?;
    Ok(())
}

/// Whether one of the cells holds a dart.
fn is_in_some(cells: &[Group], dart: Dart) -> bool
    ensures { IsTrue result ↔ IsInSome cells.now dart }
{
    for cell in cells {
        if cell.darts.contains(&dart) {
            return true;
        }
    }
    false
}

/// Finds the cells of any number of touched darts: the darts are put in order, and those of each cell marked.
fn cells_of_many<K: Kind, const DIM: usize>(
    alloc: Global,
    links: &Links<K, DIM>,
    walk: &CellWalk<K, DIM>,
    dim: usize,
    touched: &[Dart],
) -> Result<Vec<Group>, AllocError>
    requires walk { walk.now ≡ dim }
    requires sound { IsSound K.kind DIM links.now.rows }
    ensures { IfOk result (λ cells.
        AreBareCells (InCell K.kind (links_of links.now.rows) dim) dim touched.now cells.items) }
{
    let mut wanted = Wanted::new(alloc, touched)?;
    let mut cells = Vec::new(alloc);
    for place in 0..wanted.len() {
        add_cell(alloc, links, walk, dim, place, &mut wanted, &mut cells)?;
    }
    cells.sort_unstable_by_key(|cell| cell.least());
    Ok(cells)
}

/// Adds the cell of the wanted dart at a place, unless it is there.
fn add_cell<K: Kind, const DIM: usize>(
    alloc: Global,
    links: &Links<K, DIM>,
    walk: &CellWalk<K, DIM>,
    dim: usize,
    place: usize,
    wanted: &mut Wanted,
    cells: &mut Vec<Group>,
) -> Result<(), AllocError>
    requires walk { walk.now ≡ dim }
    requires place { place < length wanted.old.darts }
    ensures { OnOk result (IsCellAdded (InCell K.kind (links_of links.now.rows) dim) dim place wanted.old wanted.new
        cells.old.items cells.new.items) }
{
    if wanted.is_found(place) {
        return Ok(());
    }
    let darts = walk.cell(alloc, links, wanted.dart(place))?;
    wanted.mark(&darts);
    cells.push(Group {
        dim,
        darts,
        value: None,
    })?;
    Ok(())
}
