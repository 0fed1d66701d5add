//! Boundaries and folds, which are looked for without memory.
ghost use Rattle.std.specs.Prelude.{◌≡◌, ℕ, ◌≤◌, ◌↔◌, IsTrue, IfSome, IfNone};
ghost use Rattle.map_defs.specs.Rows.{links_of, IsLive};
ghost use Rattle.half_defs.specs.Orientation.{HasBoundary, IsFolded, IsFirstFold};
ghost use Rattle.orient_half.specs.Boundaries.{IsLeastFold};

use link_rows::Links;
use map_kind::{Alpha, Dart};

/// Whether some live dart has a free link.
///
/// It takes no memory, and costs a few steps for each link of the darts that were made.
pub(crate) fn has_boundary<const DIM: usize>(links: &Links<Alpha, DIM>) -> bool
    ensures { IsTrue result ↔ HasBoundary DIM (IsLive links.now.rows) (links_of links.now.rows) }
{
    for number in 0..links.made() {
        if is_at_boundary(links, Dart::new(number + 1).unwrap()) {
            return true;
        }
    }
    false
}

/// Whether the dart is live and has a free link.
fn is_at_boundary<const DIM: usize>(links: &Links<Alpha, DIM>, dart: Dart) -> bool
    ensures { IsTrue result ↔ HasBoundary DIM (λ d. IsLive links.now.rows d × (d ≡ dart)) (links_of links.now.rows) }
{
    links.is_live(dart) && has_free_link(links, dart)
}

/// Whether a dart has a free link.
fn has_free_link<const DIM: usize>(links: &Links<Alpha, DIM>, dart: Dart) -> bool
    ensures { IsTrue result ↔ ((i : ℕ) × (i ≤ DIM) × (links_of links.now.rows i dart ≡ 0)) }
{
    links.see_sound();
    let Some(row) = links.row(dart) else {
        return true;
    };
    for link in 0..links.dimension() + 1 {
        if row.entry(link) == 0 {
            return true;
        }
    }
    false
}

/// A dart, and a link of it from 2 upwards that leads where its link 0 leads.
#[derive(Clone, Copy, Debug, PartialEq, Eq)]
pub(crate) struct Fold {
    pub(crate) dart: Dart,
    pub(crate) link: usize,
}

/// The least live dart with a link from 2 upwards that leads where link 0 leads, and its least such link. No link is free.
///
/// It takes no memory, and costs a few steps for each link of the darts that were made.
pub(crate) fn first_fold<const DIM: usize>(links: &Links<Alpha, DIM>) -> Option<Fold>
    requires { HasBoundary DIM (IsLive links.now.rows) (links_of links.now.rows) → ⊥ }
    ensures first { IfSome result (λ fold. IsFirstFold DIM (IsLive links.now.rows) (links_of links.now.rows) fold.dart fold.link) }
    ensures none { IfNone result ((d i : ℕ) → IsFolded DIM (IsLive links.now.rows) (links_of links.now.rows) d i → ⊥) }
{
    for number in 0..links.made() {
        let dart = Dart::new(number + 1).unwrap();
        if let Some(link) = folded_link(links, dart) {
            return Some(Fold { dart, link });
        }
    }
    None
}

/// The least link of a live dart, from 2 upwards, that leads where link 0 leads. Link 0 of a dart that is not live leads nowhere.
fn folded_link<const DIM: usize>(links: &Links<Alpha, DIM>, dart: Dart) -> Option<usize>
    requires { HasBoundary DIM (IsLive links.now.rows) (links_of links.now.rows) → ⊥ }
    ensures least { IfSome result (λ link. IsLeastFold DIM (IsLive links.now.rows) (links_of links.now.rows) dart link) }
    ensures none { IfNone result ((i : ℕ) → IsFolded DIM (IsLive links.now.rows) (links_of links.now.rows) dart i → ⊥) }
{
    links.see_sound();
    let row = links.row(dart)?;
    let opposite = row.entry(0);
    if opposite == 0 {
        return None;
    }
    for link in 2..links.dimension() + 1 {
        if row.entry(link) == opposite {
            return Some(link);
        }
    }
    None
}
