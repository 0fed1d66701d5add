ghost use Rattle.std.specs.Prelude.{ℕ, ◌≤◌, ◌↔◌, Contains, IsTrue, None};
ghost use Rattle.std.specs.List.Sorted.{IsStrictlyIncreasing};
ghost use Rattle.map_defs.specs.Kind.{beta};
ghost use Rattle.map_defs.specs.Rows.{links_of};
ghost use Rattle.map_defs.specs.Laws.{Laws};
ghost use Rattle.map_defs.specs.Removal.{JoinsNoDart};
ghost use Rattle.beta_edit.specs.Crossing.{drawn_step, IsDrawnBack};

use crate::crossing::walk_end;
use cell_edit::is_among;
use link_rows::Links;
use map_kind::{Beta, Dart};

/// Whether no remaining dart would be joined to itself by a link from 2 upwards that is drawn across these darts, which are
/// ascending. It costs the walks across them, times a logarithm.
pub(crate) fn stays_apart<const DIM: usize>(
    links: &Links<Beta, DIM>,
    link: usize,
    beside: Option<usize>,
    darts: &[Dart],
) -> bool
    requires low { 2 ≤ link }
    requires high { link ≤ DIM }
    requires ascending { IsStrictlyIncreasing darts.now }
    requires darts { Contains darts.now 0 → ⊥ }
    requires laws { Laws beta (links_of links.now.rows) }
    ensures { IsTrue result ↔ JoinsNoDart (links_of links.now.rows) link (Contains darts.now) (drawn_step (links_of links.now.rows) beside link) }
{
    for dart in darts {
        if is_drawn_back(links, link, beside, darts, *dart) {
            return false;
        }
    }
    true
}

/// Whether a link of a remaining dart that leads to this dart would be drawn back to that remaining dart.
fn is_drawn_back<const DIM: usize>(
    links: &Links<Beta, DIM>,
    link: usize,
    beside: Option<usize>,
    darts: &[Dart],
    dart: Dart,
) -> bool
    requires high { link ≤ DIM }
    requires ascending { IsStrictlyIncreasing darts.now }
    requires darts { Contains darts.now 0 → ⊥ }
    ensures { IsTrue result ↔ IsDrawnBack (links_of links.now.rows) beside link darts.now dart }
{
    let Some(remaining) = links.link(dart, link) else {
        return false;
    };
    if is_among(darts, remaining) {
        return false;
    }
    match walk_end(links, link, beside, darts, dart) {
        Some(end) => end == remaining.number(),
        None => false,
    }
}

/// Whether no remaining dart would be joined to itself by a link from 2 upwards after these darts are taken out of their
/// edges. It costs the walks round the faces, for each link of the map, times a logarithm.
pub(crate) fn sides_stay_apart<const DIM: usize>(links: &Links<Beta, DIM>, darts: &[Dart]) -> bool
    requires ascending { IsStrictlyIncreasing darts.now }
    requires darts { Contains darts.now 0 → ⊥ }
    requires laws { Laws beta (links_of links.now.rows) }
    ensures { IsTrue result ↔ ((j : ℕ) → 2 ≤ j → j ≤ DIM
        → JoinsNoDart (links_of links.now.rows) j (Contains darts.now) (drawn_step (links_of links.now.rows) None j)) }
{
    for link in 2..links.dimension() + 1 {
        if !stays_apart(links, link, None, darts) {
            return false;
        }
    }
    true
}
