//! The plans for generalized maps.
ghost use Rattle.map_defs.specs.Kind.{alpha};
ghost use Rattle.map_defs.specs.Rows.{links_of, IsLive};
ghost use Rattle.map_defs.specs.Laws.{Laws};
ghost use Rattle.face_center.specs.Planning.{PlansDangling};

pub use crate::center::center_plan;
use crate::hanging::{Hanging, hanging_edit};
use cell_edit::alpha_corner;
use link_rows::{Edit, Links};
use map_kind::{Alpha, Dart, Refused};
use std::alloc::Global;

/// The edit that hangs a dangling edge in the face of a dart, at the dart's corner. Each dart of the corner, on all sides of
/// the face, gets two new darts, at which the new edge begins and ends, numbered on from those that were made: first the
/// starts in the order of the corner's darts, then the ends in the same order. Link 1 joins the dart with the start, link 0
/// the start with the end, and link 1 the ends, where the edge dangles.
///
/// It is always possible: only memory can lack.
///
/// It costs the darts of the corner, for each link of the map, times a logarithm.
pub fn dangle_plan<const DIM: usize>(
    alloc: Global,
    links: &Links<Alpha, DIM>,
    dart: Dart,
) -> Result<Edit, Refused>
    requires dart { IsLive links.now.rows dart }
    requires laws { Laws alpha (links_of links.now.rows) }
    ensures { PlansDangling alpha DIM links.now.rows dart result }
{
    // Links and back links agree.
    links.see_sound();
    let darts = alpha_corner(alloc, links, dart)?;
    Ok(hanging_edit(alloc, links, Hanging::Corner, darts)?)
}
