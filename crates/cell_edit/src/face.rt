ghost use Rattle.std.specs.Prelude.{ℕ, ◌≤◌, ◌<◌, ◌↔◌, All, length, IfOk, OnOk, IsErrOf};
ghost use Rattle.map_defs.specs.Rows.{links_of, IsLive};
ghost use Rattle.map_defs.specs.Laws.{Laws};
ghost use Rattle.map_defs.specs.Insertion.{FacePairs, IsClosedPath, IsFacePaired};
ghost use Rattle.sewing.specs.Triples.{Lists, IsAscending};
ghost use Rattle.cell_edit.specs.Planning.{PlansFace};

use crate::along::{carried_darts, insertion_pairs};
use crate::insertion::insertion_edit;
use crate::path::{are_apart, face_seeds, is_closed, is_on_one_volume};
use link_rows::{Edit, Links};
use map_kind::{Dart, Kind, Refusal, Refused};
use sewing::{PairFault, Triple};
use std::alloc::Global;

/// The edit that inserts a face into a volume along a closed path, which is given by one dart at the start of each of its
/// sides. Each dart of the path's sides, with their copies on the other volumes, gets a new dart, numbered on from those
/// that were made in the order of these darts; link 2 joins the two, link 1 joins the new darts around the face, and link
/// 3 across it.
///
/// `OtherCell` comes exactly where the darts do not lie on one side of one volume; then `NotClosed` exactly where some side
/// does not end where the next begins; then `Unpaired` exactly where a dart stands twice on the path or the darts of the
/// sides cannot be paired, all memory aside.
///
/// It costs, for each side of the path, the darts around its end in the volume, and the darts of all sides, for each link
/// of the map, times a logarithm. The whole volume is walked only where `OtherCell` or `NotClosed` comes.
pub fn face_plan<K: Kind, const DIM: usize>(
    alloc: Global,
    links: &Links<K, DIM>,
    path: &[Dart],
) -> Result<Edit, Refused>
    requires dim { 3 ≤ DIM }
    requires some { 1 ≤ length path.now }
    requires live { All (IsLive links.now.rows) path.now }
    requires laws { Laws K.kind (links_of links.now.rows) }
    ensures { PlansFace K.kind DIM links.now.rows path.now result }
{
    // A map has links 0 to 2 at least.
    links.see_sound();

    // A closed path lies on one volume, so the volume is walked only for a path that is not closed.
    if !is_closed(alloc, links, path)? {
        if !is_on_one_volume(alloc, links, path)? {
            return Err(Refused::Line(Refusal::OtherCell));
        }
        return Err(Refused::Line(Refusal::NotClosed));
    }
    match face_pairs(alloc, links, path) {
        Ok(pairs) => {
            let darts = carried_darts(alloc, links, 2, path)?;
            Ok(insertion_edit(alloc, links, 2, darts, &pairs)?)
        }
        Err(PairFault::Unpaired) => Err(Refused::Line(Refusal::Unpaired)),
        Err(PairFault::NoMemory) => Err(Refused::NoMemory),
    }
}

/// The pairs of the darts of a closed path's sides, ascending. `Unpaired` comes exactly where a dart stands twice on the path
/// or the darts cannot be paired, memory aside.
fn face_pairs<K: Kind, const DIM: usize>(
    alloc: Global,
    links: &Links<K, DIM>,
    path: &[Dart],
) -> Result<Vec<Triple>, PairFault>
    requires low { 2 ≤ DIM }
    requires closed { IsClosedPath K.kind (links_of links.now.rows) path.now }
    ensures members { IfOk result (λ pairs. (x y t : ℕ) → Lists pairs.items x y t ↔ FacePairs K.kind (links_of links.now.rows) path.now x y t) }
    ensures ascending { IfOk result (λ pairs. IsAscending pairs.items) }
    ensures paired { OnOk result (IsFacePaired K.kind (links_of links.now.rows) path.now) }
    ensures unpaired { IsErrOf result PairFault.Unpaired → IsFacePaired K.kind (links_of links.now.rows) path.now → ⊥ }
{
    if !are_apart(alloc, path)? {
        return Err(PairFault::Unpaired);
    }
    let seeds = face_seeds(alloc, links, path)?;
    insertion_pairs(alloc, links, 2, &seeds)
}
