ghost use Rattle.std.specs.Prelude.{◌≤◌, ◌↔◌, IfOk, IsTrue};
ghost use Rattle.map_defs.specs.Rows.{links_of};
ghost use Rattle.map_defs.specs.Insertion.{AreOnOneSide};

use crate::along::leads;
use link_rows::Links;
use map_kind::{Dart, Kind};
use std::alloc::{AllocError, Global};

/// How many times a walk goes along both its links before it is given up.
const TURNS: usize = 16;

/// Whether two darts lie on one side of one face. A few steps are taken each way around the face first; then the walk goes
/// both ways, remembers the darts, and ends where it finds `other`.
///
/// It costs the darts of the face that are not farther from `one` than `other`, times a logarithm; all darts of that side only
/// where `other` is none of them.
pub fn are_on_one_side<K: Kind, const DIM: usize>(
    alloc: Global,
    links: &Links<K, DIM>,
    one: Dart,
    other: Dart,
) -> Result<bool, AllocError>
    requires { 2 ≤ DIM }
    ensures { IfOk result (λ one_side. IsTrue one_side ↔ AreOnOneSide (links_of links.now.rows) one other) }
{
    if is_near(links, K::inverse(0), 1, one, other)
        || is_near(links, K::inverse(1), 0, one, other)
    {
        return Ok(true);
    }
    leads(alloc, links, &[0, 1], one, other)
}

/// Whether few steps around a face, along links `first` and `second` in turn, lead from one dart to another. A yes says that
/// the two lie on one side of the face; a no says nothing. It takes no memory, and costs so few steps however large the face.
fn is_near<K: Kind, const DIM: usize>(
    links: &Links<K, DIM>,
    first: usize,
    second: usize,
    one: Dart,
    other: Dart,
) -> bool
    requires first { first ≤ 1 }
    requires second { second ≤ 1 }
    ensures { IsTrue result → AreOnOneSide (links_of links.now.rows) one other }
{
    // A map has links 0 to 2 at least.
    links.see_sound();
    let mut at = one;
    for _turn in 0..TURNS {
        let Some(between) = links.link(at, first) else {
            return false;
        };
        let Some(next) = links.link(between, second) else {
            return between == other;
        };
        if between == other || next == other {
            return true;
        }
        if next == one {
            return false;
        }
        at = next;
    }
    false
}
