ghost use Rattle.std.specs.Prelude.{ℕ, ◌≢◌, ◌↔◌, All, Contains, IsTrue};
ghost use Rattle.map_defs.specs.Rows.{links_of, IsLive};
ghost use Rattle.map_defs.specs.Laws.{Laws};
ghost use Rattle.face_center.specs.Planning.{PlansCentre};

use crate::hanging::{Hanging, hanging_edit};
use cell_walk::cell;
use link_rows::{Edit, Links};
use map_kind::{Dart, Kind, Refusal, Refused};
use std::alloc::Global;

/// The edit that makes a vertex in the middle of the face of a dart, with an edge to each corner. Each dart of the face, on
/// both its sides, gets two new darts, at which its new edge begins and ends, numbered on from those that were made: first
/// the starts in the order of the face's darts, then the ends in the same order. In a generalized map link 1 joins the dart
/// with the start, link 0 the start with the end, and link 1 the ends around the new vertex. In a combinatorial map the way
/// leads from the dart over the start to the new vertex, and over the end back to the dart.
///
/// `NotClosed` comes exactly where link 0 or link 1 of some dart of the face is free, memory aside.
///
/// It costs the darts of the face, for each link of the map, times a logarithm.
pub fn center_plan<K: Kind, const DIM: usize>(
    alloc: Global,
    links: &Links<K, DIM>,
    dart: Dart,
) -> Result<Edit, Refused>
    requires dart { IsLive links.now.rows dart }
    requires laws { Laws K.kind (links_of links.now.rows) }
    ensures { PlansCentre K.kind DIM links.now.rows dart result }
{
    // A map has links 0 to 2 at least.
    links.see_sound();
    let darts = cell(alloc, links, 2, dart)?;
    if !are_closed(links, &darts) {
        return Err(Refused::Line(Refusal::NotClosed));
    }
    Ok(hanging_edit(alloc, links, Hanging::Face, darts)?)
}

/// Whether links 0 and 1 of none of these live darts are free.
fn are_closed<K: Kind, const DIM: usize>(links: &Links<K, DIM>, darts: &[Dart]) -> bool
    requires { All (IsLive links.now.rows) darts.now }
    ensures { IsTrue result ↔ ((x : ℕ) → Contains darts.now x
        → (links_of links.now.rows 0 x ≢ 0) × (links_of links.now.rows 1 x ≢ 0)) }
{
    for dart in darts {
        if !is_closed(links, *dart) {
            return false;
        }
    }
    true
}

/// Whether neither link 0 nor link 1 of a live dart is free.
fn is_closed<K: Kind, const DIM: usize>(links: &Links<K, DIM>, dart: Dart) -> bool
    requires { IsLive links.now.rows dart }
    ensures { IsTrue result ↔ ((links_of links.now.rows 0 dart ≢ 0) × (links_of links.now.rows 1 dart ≢ 0)) }
{
    // A map has links 0 to 2 at least.
    links.see_sound();
    let row = links.live_row(dart);
    row.entry(0) != 0 && row.entry(1) != 0
}
