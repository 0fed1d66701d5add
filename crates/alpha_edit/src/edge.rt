ghost use Rattle.std.specs.Prelude.{ℕ, ◌≤◌, ◌↔◌, IfOk, OnOk, IsErrOf};
ghost use Rattle.map_defs.specs.Kind.{alpha};
ghost use Rattle.map_defs.specs.Rows.{links_of, IsLive};
ghost use Rattle.map_defs.specs.Laws.{Laws};
ghost use Rattle.map_defs.specs.Insertion.{AlphaEdgePairs, AreAlphaEdgePaired};
ghost use Rattle.sewing.specs.Triples.{Lists, IsAscending};
ghost use Rattle.cell_edit.specs.Planning.{PlansEdge};

use cell_edit::{
    are_in_one_alpha_corner, are_on_one_side, corners, insertion_edit, insertion_pairs,
};
use link_rows::{Edit, Links};
use map_kind::{Alpha, Dart, Refusal, Refused};
use sewing::{PairFault, Triple};
use std::alloc::Global;

/// The edit that inserts an edge into a face, from the corner of `one` to that of `other`. Each dart of the two corners, on
/// all sides of the face, gets a new dart, numbered on from those that were made in the order of the corners' darts; link
/// 1 joins the two, and links 0 and 2 join the new darts along the edge and across it.
///
/// `OtherCell` comes exactly where the two darts do not lie on one side of one face; then `SameCorner` exactly where they
/// lie in one corner; then `Unpaired` exactly where the darts of the corners cannot be paired, all memory aside.
///
/// It costs the darts of the face that are not farther from `one` than `other`, and those of the corners, for each link of
/// the map, times a logarithm. The whole side of the face is walked only where `OtherCell` comes.
pub fn edge_plan<const DIM: usize>(
    alloc: Global,
    links: &Links<Alpha, DIM>,
    one: Dart,
    other: Dart,
) -> Result<Edit, Refused>
    requires one { IsLive links.now.rows one }
    requires other { IsLive links.now.rows other }
    requires laws { Laws alpha (links_of links.now.rows) }
    ensures { PlansEdge alpha DIM links.now.rows one other result }
{
    // A map has links 0 to 2 at least.
    links.see_sound();
    if !are_on_one_side(alloc, links, one, other)? {
        return Err(Refused::Line(Refusal::OtherCell));
    }
    if are_in_one_alpha_corner(alloc, links, one, other)? {
        return Err(Refused::Line(Refusal::SameCorner));
    }
    match edge_pairs(alloc, links, one, other) {
        Ok(pairs) => {
            let darts = corners(alloc, &pairs)?;
            Ok(insertion_edit(alloc, links, 1, darts, &pairs)?)
        }
        Err(PairFault::Unpaired) => Err(Refused::Line(Refusal::Unpaired)),
        Err(PairFault::NoMemory) => Err(Refused::NoMemory),
    }
}

/// The pairs of the darts of two corners, ascending. `Unpaired` comes exactly where they cannot be paired.
fn edge_pairs<const DIM: usize>(
    alloc: Global,
    links: &Links<Alpha, DIM>,
    one: Dart,
    other: Dart,
) -> Result<Vec<Triple>, PairFault>
    requires { 2 ≤ DIM }
    ensures members { IfOk result (λ pairs. (x y t : ℕ) → Lists pairs.items x y t ↔ AlphaEdgePairs (links_of links.now.rows) one other x y t) }
    ensures ascending { IfOk result (λ pairs. IsAscending pairs.items) }
    ensures paired { OnOk result (AreAlphaEdgePaired (links_of links.now.rows) one other) }
    ensures unpaired { IsErrOf result PairFault.Unpaired → AreAlphaEdgePaired (links_of links.now.rows) one other → ⊥ }
{
    let seed = Triple {
        x: one,
        y: other,
        t: 0,
    };
    insertion_pairs(alloc, links, 1, &[seed])
}
