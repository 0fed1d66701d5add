ghost use Rattle.std.specs.Prelude.{ℕ, ◌↔◌, IfOk, OnOk, IsErrOf};
ghost use Rattle.map_defs.specs.Kind.{beta};
ghost use Rattle.map_defs.specs.Rows.{links_of, IsLive};
ghost use Rattle.map_defs.specs.Laws.{Laws};
ghost use Rattle.map_defs.specs.Insertion.{BetaEdgePairs, AreBetaEdgePaired};
ghost use Rattle.sewing.specs.Triples.{Lists, IsAscending};
ghost use Rattle.cell_edit.specs.Planning.{PlansEdge};

use crate::cut::cut_edit;
use cell_edit::{Stars, are_in_one_beta_corner, are_on_one_side, copying_links, corners};
use link_rows::{Edit, Links};
use map_kind::{Beta, Dart, Refusal, Refused};
use sewing::{PairFault, Triple, pair};
use std::alloc::Global;

/// The edit that inserts an edge into a face, from the corner of `one` to that of `other`. Each of the two corners, on all
/// sides of the face, gets a new dart, numbered on from those that were made in the order of the corners' darts. The way
/// that led into a corner leads over its new dart into the other corner; link 2 joins the new darts across the edge, and
/// the links from 3 upwards join them with those on the other sides of the face.
///
/// `OtherCell` comes exactly where the two darts do not lie on one side of one face; then `SameCorner` exactly where they
/// lie in one corner; then `Unpaired` exactly where no way leads into one of the corners, or the ways into the corners
/// cannot be paired, all memory aside.
///
/// It costs the darts of the face that are not farther from `one` than `other`, and those of the corners, for each link of
/// the map, times a logarithm. The whole side of the face is walked only where `OtherCell` comes.
pub fn edge_plan<const DIM: usize>(
    alloc: Global,
    links: &Links<Beta, DIM>,
    one: Dart,
    other: Dart,
) -> Result<Edit, Refused>
    requires one { IsLive links.now.rows one }
    requires other { IsLive links.now.rows other }
    requires laws { Laws beta (links_of links.now.rows) }
    ensures { PlansEdge beta DIM links.now.rows one other result }
{
    // A map has links 0 to 2 at least.
    links.see_sound();
    if !are_on_one_side(alloc, links, one, other)? {
        return Err(Refused::Line(Refusal::OtherCell));
    }
    if are_in_one_beta_corner(alloc, links, one, other)? {
        return Err(Refused::Line(Refusal::SameCorner));
    }
    match edge_pairs(alloc, links, one, other) {
        Ok(pairs) => {
            let stars = Stars::new(corners(alloc, &pairs)?, links.made());
            Ok(cut_edit(alloc, links, &stars, &pairs)?)
        }
        Err(PairFault::Unpaired) => Err(Refused::Line(Refusal::Unpaired)),
        Err(PairFault::NoMemory) => Err(Refused::NoMemory),
    }
}

/// The pairs of the ways into two corners, ascending. `Unpaired` comes exactly where no way leads into one of them, or they
/// cannot be paired.
fn edge_pairs<const DIM: usize>(
    alloc: Global,
    links: &Links<Beta, DIM>,
    one: Dart,
    other: Dart,
) -> Result<Vec<Triple>, PairFault>
    ensures members { IfOk result (λ pairs. (x y t : ℕ) → Lists pairs.items x y t ↔ BetaEdgePairs (links_of links.now.rows) one other x y t) }
    ensures ascending { IfOk result (λ pairs. IsAscending pairs.items) }
    ensures paired { OnOk result (AreBetaEdgePaired (links_of links.now.rows) one other) }
    ensures unpaired { IsErrOf result PairFault.Unpaired → AreBetaEdgePaired (links_of links.now.rows) one other → ⊥ }
{
    // A map has links 0 to 2 at least.
    links.see_sound();
    let Some(before_one) = links.link(one, 0) else {
        return Err(PairFault::Unpaired);
    };
    let Some(before_other) = links.link(other, 0) else {
        return Err(PairFault::Unpaired);
    };
    let seeds = [
        Triple {
            x: before_one,
            y: other,
            t: 1,
        },
        Triple {
            x: before_other,
            y: one,
            t: 1,
        },
    ];
    let copying = copying_links(alloc, links.dimension())?;
    pair(alloc, links, &seeds, &copying)
}
