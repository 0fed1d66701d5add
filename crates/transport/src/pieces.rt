ghost use Rattle.std.specs.Prelude.{◌≡◌, ◌+◌, ◌<◌, length, IsTrue, IfOk, OnOk};
ghost use Rattle.store_defs.specs.Labelings.{id_of};
ghost use Rattle.transport.specs.Pieces.{AreAllPieces};
ghost use Rattle.transport.specs.Gathered.{AreApart, HasPiece, AreGathered, met_in, IsReady, IsPieceAdded};

use crate::group::Group;
use crate::tally::LastMet;
use attr_pool::{AttrId, Labels};
use map_kind::Dart;
use std::alloc::{AllocError, Global};

/// A piece: the darts of one new cell with one id, named by the least of them. The new cell is told by its place in a
/// list.
#[derive(Clone, Copy)]
pub(crate) struct Piece {
    pub(crate) dart: Dart,
    pub(crate) id: AttrId,
    pub(crate) cell: usize,
}

/// The pieces of some cells of dimension `dim`, ascending by dart. No dart lies in two of the cells.
pub(crate) fn pieces_of<const DIM: usize>(
    alloc: Global,
    labels: &Labels<DIM>,
    dim: usize,
    cells: &[Group],
) -> Result<Vec<Piece>, AllocError>
    requires { AreApart cells.now }
    ensures { IfOk result (λ pieces. AreAllPieces (id_of labels.now dim) cells.now pieces.items) }
{
    let mut met = LastMet::new(alloc);
    let mut pieces = Vec::new(alloc);
    for place in 0..cells.len() {
        add_pieces(labels, dim, cells, place, &mut met, &mut pieces)?;
    }
    pieces.sort_unstable_by_key(|piece| piece.dart);
    Ok(pieces)
}

/// Adds the pieces of the cell at a place. What was met in the cell is of no use in the others, so it is forgotten.
fn add_pieces<const DIM: usize>(
    labels: &Labels<DIM>,
    dim: usize,
    cells: &[Group],
    place: usize,
    met: &mut LastMet,
    pieces: &mut Vec<Piece>,
) -> Result<(), AllocError>
    requires place { place < length cells.now }
    requires apart { AreApart cells.now }
    requires gathered { AreGathered (id_of labels.now dim) cells.now place 0 (met_in met.old pieces.old.items place)
        pieces.old.items }
    requires ready { IsReady met.old pieces.old.items }
    ensures gathered { OnOk result (AreGathered (id_of labels.now dim) cells.now (place + 1) 0
        (met_in met.new pieces.new.items (place + 1)) pieces.new.items) }
    ensures ready { OnOk result (IsReady met.new pieces.new.items) }
{
    let cell = &cells[place];
    for dart in &cell.darts {
        add_piece(labels, dim, place, *dart, met, pieces)?;
    }
    met.forget(pieces.len());
    Ok(())
}

/// Adds the piece of a dart, unless the dart has no id or its id was met last in the same cell. Most often that is told by
/// the piece that was added last.
fn add_piece<const DIM: usize>(
    labels: &Labels<DIM>,
    dim: usize,
    cell: usize,
    dart: Dart,
    met: &mut LastMet,
    pieces: &mut Vec<Piece>,
) -> Result<(), AllocError>
    requires { IsReady met.old pieces.old.items }
    ensures added { OnOk result (IsPieceAdded (id_of labels.now dim) cell dart (met_in met.old pieces.old.items cell)
        (met_in met.new pieces.new.items cell) pieces.old.items pieces.new.items) }
    ensures ready { OnOk result (IsReady met.new pieces.new.items) }
{
    let Some(id) = labels.id(dim, dart) else {
        return Ok(());
    };
    if is_last(pieces, cell, id) {
        return Ok(());
    }
    if met.meet(id, cell, pieces)? {
        return Ok(());
    }
    pieces.push(Piece { dart, id, cell })?;
    Ok(())
}

/// Whether the piece that was added last has this cell and this id.
fn is_last(pieces: &[Piece], cell: usize, id: AttrId) -> bool
    ensures { IsTrue result → HasPiece pieces.now cell id }
{
    match pieces.last() {
        Some(piece) => piece.cell == cell && piece.id == id,
        None => false,
    }
}
