ghost use Rattle.std.specs.Prelude.{◌≡◌, ℕ, ◌↔◌, Contains, IsTrue};
ghost use Rattle.map_defs.specs.Rows.{links_of};
ghost use Rattle.map_defs.specs.Removal.{IsFlatAt};

use link_rows::Links;
use map_kind::{Beta, Dart};

/// Whether at the start of each of these darts two sides meet, on each side of the face.
pub(crate) fn are_flat<const DIM: usize>(links: &Links<Beta, DIM>, darts: &[Dart]) -> bool
    ensures { IsTrue result ↔ ((b : ℕ) → Contains darts.now b → IsFlatAt (links_of links.now.rows) b) }
{
    for dart in darts {
        if !is_flat(links, *dart) {
            return false;
        }
    }
    true
}

/// Whether a side ends where this side begins, and on this face's other side, if there is one, nothing else meets there.
fn is_flat<const DIM: usize>(links: &Links<Beta, DIM>, dart: Dart) -> bool
    ensures { IsTrue result ↔ IsFlatAt (links_of links.now.rows) dart }
{
    // A map has links 0 to 2 at least.
    links.see_sound();
    let Some(before) = links.link(dart, 0) else {
        return false;
    };
    let beyond = links.number_at(before, 2);
    let Some(other) = links.link(dart, 2) else {
        return beyond == 0;
    };
    let after = links.number_at(other, 1);
    after != 0 && after == beyond
}

/// Whether each of these darts belongs to a face of two sides.
pub(crate) fn are_two_sided<const DIM: usize>(links: &Links<Beta, DIM>, darts: &[Dart]) -> bool
    ensures { IsTrue result ↔ ((b : ℕ) → Contains darts.now b → links_of links.now.rows 1 (links_of links.now.rows 1 b) ≡ b) }
{
    for dart in darts {
        if !is_two_sided(links, *dart) {
            return false;
        }
    }
    true
}

/// Whether a side is followed by one side, and then by itself.
fn is_two_sided<const DIM: usize>(links: &Links<Beta, DIM>, dart: Dart) -> bool
    ensures { IsTrue result ↔ (links_of links.now.rows 1 (links_of links.now.rows 1 dart) ≡ dart) }
{
    // A map has links 0 to 2 at least.
    links.see_sound();
    let Some(next) = links.link(dart, 1) else {
        return false;
    };
    links.number_at(next, 1) == dart.number()
}
