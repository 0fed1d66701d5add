ghost use Rattle.std.specs.Prelude.{IfOk, IfErr, OnOk, map};
ghost use Rattle.std.specs.List.Sorted.{IsStrictlyIncreasing};
ghost use Rattle.map_defs.specs.OffOfMap.{AreOffRows, HasOffText, LacksOffText};
ghost use Rattle.off_text.specs.MapViews.{placed, off_view, IfLine};

use crate::faces::{faces_of, place_cells};
use crate::points::points_of;
use crate::round::{refuse_thin, rounds_of};
use cell_walk::{cell_lists, cells};
use link_rows::Links;
use map_kind::{Kind, Place, Refused, Value};
use std::alloc::Global;

/// What OFF text tells of a map: points, faces along them, and a number of edges.
#[derive(Debug, Drop)]
pub struct OffRows {
    /// The point of each 0-cell, by ascending least dart of the cell.
    pub points: Vec<Value>,
    /// A face for each 2-cell, by ascending least dart of the cell. It has its corners in the order in which it goes round
    /// from that dart: places of `points`, from 0.
    pub faces: Vec<Vec<u32>>,
    /// How many 1-cells there are.
    pub edges: u64,
}

/// What OFF text tells of a map whose 0-cells have these points. Each place is the least dart of a 0-cell and the point of
/// that cell, by ascending dart.
///
/// A face begins at the least dart of its 2-cell, and goes on from each dart with link 0 and then link 1, in a combinatorial
/// map with link 1 alone, until it is at the first dart again. In a map of dimension 3 or more it goes round one side of the
/// 2-cell.
///
/// It is refused as `NotClosed` where the way round a 2-cell meets a free link, else as `NoPoint` where a 0-cell has no
/// place, and else as `ThinFace` where the way round a 2-cell has fewer than three darts; `NoMemory` may come any time. The
/// format is the ASCII OFF format; that a face begins at its least dart, and this order of refusals, are this project's.
///
/// It costs a few steps for each dart that was made, and a logarithm for each 0-cell.
pub fn off_of<K: Kind, const DIM: usize>(
    alloc: Global,
    links: &Links<K, DIM>,
    places: &[Place],
) -> Result<OffRows, Refused>
    requires { IsStrictlyIncreasing (map (λ place. place.dart) places.now) }
    ensures rows { IfOk result (λ off. AreOffRows K.kind links.now.rows (placed places.now) (off_view off)) }

    // It is answered exactly where there is no reason to refuse it, and else refused for the first.
    ensures answered { OnOk result (HasOffText K.kind links.now.rows (placed places.now)) }
    ensures refused { IfErr result (λ refused. IfLine refused (LacksOffText K.kind links.now.rows (placed places.now))) }
{
    links.see_sound();
    let rounds = rounds_of(alloc, links)?;
    let vertices = cell_lists(alloc, links, 0)?;
    let points = points_of(alloc, &vertices.least, places)?;
    refuse_thin(&rounds)?;
    let places_of_darts = place_cells(alloc, links.made(), &vertices.darts)?;
    Ok(OffRows {
        points,
        faces: faces_of(alloc, &rounds, &places_of_darts)?,
        edges: cells(alloc, links, 1)?.len() as u64,
    })
}
