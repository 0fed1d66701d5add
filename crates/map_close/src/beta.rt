//! The plan for combinatorial maps.
ghost use Rattle.std.specs.Prelude.{◌≤◌, IfOk};
ghost use Rattle.map_defs.specs.Kind.{beta};
ghost use Rattle.map_defs.specs.Rows.{links_of};
ghost use Rattle.map_defs.specs.Laws.{Laws};
ghost use Rattle.map_close.specs.Planning.{PlansClosing};

use crate::closing::closing_edit;
use link_rows::{Edit, Links};
use map_kind::Beta;
use std::alloc::{AllocError, Global};

/// The edit that closes a map at a link from 2 to `DIM`. Each live dart that is free there gets a new dart, numbered on from
/// those that were made in the order of the darts. The link joins the two, and the link before joins the new darts around the
/// boundary; the links that are distant run the other way round than at the old darts, and the next link is free at the new
/// darts. Link 0 of the new darts leads back along link 1.
///
/// It is always possible: only memory can lack. It costs a step for each dart that was made, and the walks around the
/// boundary and its darts, for each link of the map. Besides the edit it takes 4 bytes for each dart that was made.
pub fn close_plan<const DIM: usize>(
    alloc: Global,
    links: &Links<Beta, DIM>,
    link: usize,
) -> Result<Edit, AllocError>
    requires dim { link ≤ DIM }
    requires link { 2 ≤ link }
    requires laws { Laws beta (links_of links.now.rows) }
    ensures { IfOk result (PlansClosing beta DIM links.now.rows link) }
{
    closing_edit(alloc, links, link)
}
