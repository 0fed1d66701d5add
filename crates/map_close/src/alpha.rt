//! The plan for generalized maps.
ghost use Rattle.std.specs.Prelude.{◌≤◌, IfOk};
ghost use Rattle.map_defs.specs.Kind.{alpha};
ghost use Rattle.map_defs.specs.Rows.{links_of};
ghost use Rattle.map_defs.specs.Laws.{Laws};
ghost use Rattle.map_close.specs.Planning.{PlansClosing};

use crate::closing::closing_edit;
use link_rows::{Edit, Links};
use map_kind::Alpha;
use std::alloc::{AllocError, Global};

/// The edit that closes a map at a link from 0 to `DIM`. Each live dart that is free there gets a new dart, numbered on from
/// those that were made in the order of the darts. The link joins the two, and the link before joins the new darts around the
/// boundary; the links that are distant run as they run at the old darts, and the next link is free at the new darts.
///
/// It is always possible: only memory can lack. It costs a step for each dart that was made, and the walks around the
/// boundary and its darts, for each link of the map. Besides the edit it takes 4 bytes for each dart that was made.
pub fn close_plan<const DIM: usize>(
    alloc: Global,
    links: &Links<Alpha, DIM>,
    link: usize,
) -> Result<Edit, AllocError>
    requires dim { link ≤ DIM }
    requires laws { Laws alpha (links_of links.now.rows) }
    ensures { IfOk result (PlansClosing alpha DIM links.now.rows link) }
{
    closing_edit(alloc, links, link)
}
