//! The plans for combinatorial maps.
ghost use Rattle.map_defs.specs.Kind.{beta};
ghost use Rattle.map_defs.specs.Rows.{links_of, IsLive};
ghost use Rattle.map_defs.specs.Laws.{Laws};
ghost use Rattle.face_center.specs.Planning.{PlansDangling};

pub use crate::center::center_plan;
use crate::hanging::{Hanging, hanging_edit};
use cell_edit::beta_corner;
use link_rows::{Edit, Links};
use map_kind::{Beta, Dart, Refusal, Refused};
use std::alloc::Global;

/// The edit that hangs a dangling edge in the face of a dart, at the dart's corner. Each dart of the corner, on all sides of
/// the face, gets two new darts, at which the new edge begins and ends, numbered on from those that were made: first the
/// starts in the order of the corner's darts, then the ends in the same order. The way that led into the corner leads over
/// the start to where the edge dangles, and over the end back into the corner.
///
/// `Unpaired` comes exactly where no way leads into the corner, as the dart is 0-free, memory aside.
///
/// It costs the darts of the corner, for each link of the map, times a logarithm.
pub fn dangle_plan<const DIM: usize>(
    alloc: Global,
    links: &Links<Beta, DIM>,
    dart: Dart,
) -> Result<Edit, Refused>
    requires dart { IsLive links.now.rows dart }
    requires laws { Laws beta (links_of links.now.rows) }
    ensures { PlansDangling beta DIM links.now.rows dart result }
{
    // A map has links 0 to 2 at least.
    links.see_sound();
    if links.number_at(dart, 0) == 0 {
        return Err(Refused::Line(Refusal::Unpaired));
    }
    let darts = beta_corner(alloc, links, dart)?;
    Ok(hanging_edit(alloc, links, Hanging::Corner, darts)?)
}
