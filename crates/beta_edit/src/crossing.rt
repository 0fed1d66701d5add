ghost use Rattle.std.specs.Prelude.{◌≡◌, ℕ, ◌↔◌, Contains, IsNone, IfSome, IfNone};
ghost use Rattle.std.specs.List.Sorted.{IsStrictlyIncreasing};
ghost use Rattle.map_defs.specs.Kind.{beta};
ghost use Rattle.map_defs.specs.Rows.{links_of, IsSound};
ghost use Rattle.beta_edit.specs.Crossing.{side_of, drawn_step, DrawsTo};

use cell_edit::is_among;
use link_rows::Links;
use map_kind::{Beta, Dart};

/// The dart at a link of a dart, if there is one. A link above the dimension is free.
pub(crate) fn linked<const DIM: usize>(
    links: &Links<Beta, DIM>,
    link: usize,
    dart: Dart,
) -> Option<Dart>
    ensures free { IsNone result ↔ (links_of links.now.rows link dart ≡ 0) }
    ensures linked { IfSome result (λ other. other ≡ links_of links.now.rows link dart) }
    ensures sound { IsSound beta DIM links.now.rows }
{
    if link > links.dimension() {
        return None;
    }
    links.link(dart, link)
}

/// The link that leads round a face as a link is drawn: 1 forward for link 1, and 0 backward for all others.
fn side(link: usize) -> usize
    ensures { result ≡ side_of link }
{
    if link == 1 { 1 } else { 0 }
}

/// The dart to which one step leads of the walk by which a link is drawn across a cell; none exactly where it comes to a
/// free link.
fn across<const DIM: usize>(
    links: &Links<Beta, DIM>,
    link: usize,
    beside: Option<usize>,
    dart: Dart,
) -> Option<Dart>
    ensures free { IsNone result ↔ (drawn_step (links_of links.now.rows) beside link dart ≡ 0) }
    ensures leads { IfSome result (λ other. other ≡ drawn_step (links_of links.now.rows) beside link dart) }
{
    match beside {
        Some(beside) => linked(links, link, linked(links, beside, dart)?),
        None => linked(links, side(link), dart),
    }
}

/// The number of the first dart outside a cell on the walk from a dart by which a link is drawn across the cell, 0 where the
/// walk comes to a free link; none exactly where the walk has no end. It costs the steps of the walk, times the logarithm of
/// the cell.
pub(crate) fn walk_end<const DIM: usize>(
    links: &Links<Beta, DIM>,
    link: usize,
    beside: Option<usize>,
    cell: &[Dart],
    from: Dart,
) -> Option<u32>
    requires ascending { IsStrictlyIncreasing cell.now }
    requires darts { Contains cell.now 0 → ⊥ }
    ensures end { IfSome result (λ end. DrawsTo (links_of links.now.rows) beside link cell.now from end) }
    ensures endless { IfNone result ((y : ℕ) → DrawsTo (links_of links.now.rows) beside link cell.now from y → ⊥) }
{
    let mut at = from;
    // A walk that ends comes to no dart twice.
    for _turn in 0..cell.len() + 1 {
        if !is_among(cell, at) {
            return Some(at.number());
        }
        let Some(next) = across(links, link, beside, at) else {
            return Some(0);
        };
        at = next;
    }
    None
}

/// The number that `walk_end` answers, of a walk from a dart of the cell; none exactly where the walk has no end.
pub(crate) fn walk_end_from_within<const DIM: usize>(
    links: &Links<Beta, DIM>,
    link: usize,
    beside: Option<usize>,
    cell: &[Dart],
    from: Dart,
) -> Option<u32>
    requires ascending { IsStrictlyIncreasing cell.now }
    requires darts { Contains cell.now 0 → ⊥ }
    requires from { Contains cell.now from }
    ensures end { IfSome result (λ end. DrawsTo (links_of links.now.rows) beside link cell.now from end) }
    ensures endless { IfNone result ((y : ℕ) → DrawsTo (links_of links.now.rows) beside link cell.now from y → ⊥) }
{
    let Some(next) = across(links, link, beside, from) else {
        return Some(0);
    };
    walk_end(links, link, beside, cell, next)
}
