ghost use Rattle.std.specs.Prelude.{◌≡◌, ℕ, ◌+◌, ◌-◌, ◌*◌, ◌≤◌, ◌<◌, ◌++◌, ◌^◌, Some, [], length, map, IfOk, OnOk};
ghost use Rattle.map_defs.specs.Kind.{alpha};
ghost use Rattle.map_defs.specs.Rows.{links_of, made};
ghost use Rattle.map_defs.specs.Laws.{Laws};
ghost use Rattle.map_defs.specs.Edits.{Fits, after_edit};
ghost use Rattle.map_defs.specs.Polygon.{per_side, polygon_rows, row_of, side_rows, next_side, previous_side};

use crate::born::BornRows;
use crate::edit::Edit;
use crate::links::Links;
use dart_arena::{MADE_MAX, Row};
use map_kind::{Dart, Kind};
use std::alloc::{AllocError, Global};

/// How many sides a polygon has at most.
pub const SIDES_MAX: u32 = 65_536;

/// The edit that makes a polygon: a face of so many sides, with two darts a side in a generalized and one in a
/// combinatorial map. Its darts are numbered on from those that were made, side by side. In a generalized map link 0
/// pairs the two darts of a side, and link 1 pairs the second with the first of the next side, in a circle; in a
/// combinatorial map link 1 leads from each side to the next. The edit fits the links and keeps the laws.
pub fn polygon_edit<K: Kind, const DIM: usize>(
    alloc: Global,
    links: &Links<K, DIM>,
    sides: u32,
) -> Result<Edit, AllocError>
    requires low { 3 ≤ sides }
    requires high { sides ≤ SIDES_MAX }
    requires few { made links.now.rows + per_side K.kind * sides ≤ MADE_MAX }
    ensures births { IfOk result (λ edit. edit.births ≡ per_side K.kind * sides) }
    ensures deaths { IfOk result (λ edit. edit.deaths ≡ []) }
    ensures fits { IfOk result (λ edit. Fits K.kind DIM links.now.rows edit) }
    ensures rows { IfOk result (λ edit. after_edit DIM edit links.now.rows
        ≡ links.now.rows ++ map Some (polygon_rows K.kind DIM (made links.now.rows + 1) sides)) }
    ensures laws { IfOk result (λ edit. Laws K.kind (links_of links.now.rows) → Laws K.kind (links_of (after_edit DIM edit links.now.rows))) }
{
    let first = links.made() + 1;
    let births = K::per_side() * sides;
    let mut born = BornRows::with_room(
        alloc,
        Dart::new(first).unwrap(),
        links.dimension() + 1,
        births as usize,
    )?;
    for side in 0..sides {
        push_side::<K, DIM>(&mut born, first, sides, side)?;
    }
    Ok(Edit {
        births,
        deaths: Vec::new(alloc),
        changes: Vec::new(alloc),
        born,
    })
}

/// Appends the rows of a polygon's side, whose darts are numbered on from `first`.
fn push_side<K: Kind, const DIM: usize>(
    born: &mut BornRows,
    first: u32,
    sides: u32,
    side: u32,
) -> Result<(), AllocError>
    requires low { 2 ≤ DIM }
    requires high { DIM ≤ 8 }
    requires first { 0 < first }
    requires side { side < sides }
    requires few { first + per_side K.kind * sides < 2 ^ 32 }
    requires width { born.old.width ≡ DIM + 1 }
    requires begun { born.old.first ≡ first }
    requires next { length born.old.rows ≡ per_side K.kind * side }
    ensures { OnOk result (born.new ≡ record born.old { rows = born.old.rows ++ side_rows K.kind DIM first sides side }) }
{
    let before = previous_side(sides, side);
    let after = next_side(sides, side);
    if K::per_side() == 1 {
        return born.push(&two_links::<DIM>(first + before, first + after));
    }
    let start = first + 2 * side;
    born.push(&two_links::<DIM>(start + 1, first + 2 * before + 1))?;
    born.push(&two_links::<DIM>(start, first + 2 * after))
}

/// The row of a dart that is linked by links 0 and 1 alone.
fn two_links<const DIM: usize>(zeroth: u32, first: u32) -> Row<DIM>
    requires { 2 ≤ DIM }
    ensures { result ≡ row_of DIM zeroth first }
{
    let mut row = Row::zeros();
    row.set(0, zeroth);
    row.set(1, first);
    row
}

/// The side before one of a face's so many sides, in a circle. Sides count from 0.
pub fn previous_side(sides: u32, side: u32) -> u32
    requires { side < sides }
    ensures side { result ≡ previous_side sides side }
    ensures within { result < sides }
{
    if side == 0 { sides - 1 } else { side - 1 }
}

/// The side behind one of a face's so many sides, in a circle. Sides count from 0.
pub fn next_side(sides: u32, side: u32) -> u32
    requires { side < sides }
    ensures side { result ≡ next_side sides side }
    ensures within { result < sides }
{
    if side + 1 == sides { 0 } else { side + 1 }
}
