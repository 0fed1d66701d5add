//! Whether a map has a dual.
ghost use Rattle.std.specs.Prelude.{◌≡◌, ◌≢◌, ℕ, ◌≤◌, ◌↔◌, IsTrue};
ghost use Rattle.map_defs.specs.Rows.{links_of, IsLive};
ghost use Rattle.map_defs.specs.Dual.{IsDualable, StaysApartDual};

use crate::entries::dual_number_at;
use link_rows::Links;
use map_kind::{Dart, Kind, is_generalized};

/// Whether a map has a dual: no link of a live dart is free, and in a combinatorial map the dual joins no dart to itself.
///
/// It takes no memory, and costs a few steps for each link of the darts that were made.
pub fn dualable<K: Kind, const DIM: usize>(links: &Links<K, DIM>) -> bool
    ensures { IsTrue result ↔ IsDualable K.kind DIM (links_of links.now.rows) (IsLive links.now.rows) }
{
    for number in 0..links.made() {
        if !is_dualable_at(links, Dart::new(number + 1).unwrap()) {
            return false;
        }
    }
    true
}

/// Whether a dart that is live has all its links, and the dual does not join it to itself. Of other darts nothing is asked.
fn is_dualable_at<K: Kind, const DIM: usize>(links: &Links<K, DIM>, dart: Dart) -> bool
    ensures { IsTrue result ↔ IsDualable K.kind DIM (links_of links.now.rows) (λ d. IsLive links.now.rows d × (d ≡ dart)) }
{
    if !links.is_live(dart) {
        return true;
    }
    is_closed(links, dart) && stays_apart(links, dart)
}

/// Whether no link of a dart is free.
fn is_closed<K: Kind, const DIM: usize>(links: &Links<K, DIM>, dart: Dart) -> bool
    ensures { IsTrue result ↔ ((i : ℕ) → i ≤ DIM → links_of links.now.rows i dart ≢ 0) }
{
    for link in 0..links.dimension() + 1 {
        if links.number_at(dart, link) == 0 {
            return false;
        }
    }
    true
}

/// Whether no link of the dual from 2 up to the last but one joins a dart to itself, in a combinatorial map. At the other
/// links, and in a generalized map, the laws of the map rule that out.
fn stays_apart<K: Kind, const DIM: usize>(links: &Links<K, DIM>, dart: Dart) -> bool
    ensures { IsTrue result ↔ StaysApartDual K.kind DIM (links_of links.now.rows) (λ d. d ≡ dart) }
{
    if is_generalized::<K>() {
        return true;
    }
    for link in 2..links.dimension() {
        if dual_number_at(links, dart, link) == dart.number() {
            return false;
        }
    }
    true
}
