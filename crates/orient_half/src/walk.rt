//! The odd walk along a link that leads to a dart of the same sign.
ghost use Rattle.std.specs.Prelude.{◌≡◌, ℕ, List, ◌++◌, IfOk, OnOk};
ghost use Rattle.map_defs.specs.Rows.{links_of, IsLive};
ghost use Rattle.half_defs.specs.Orientation.{HasBoundary, IsOddWalk};
ghost use Rattle.orient_half.specs.Marks.{IsReached, LeadsBack, AreHeld};
ghost use Rattle.orient_half.specs.Searches.{MeetsClash};
ghost use Rattle.orient_half.specs.Told.{IsWayBack};

use crate::fault::Walk;
use crate::search::{Clash, Search};
use link_rows::Links;
use map_kind::{Alpha, Dart};
use std::alloc::{AllocError, Global};

/// The walk from the first dart of a component to the dart of the clash, along its link, and back to the first dart.
pub(crate) fn odd_walk<const DIM: usize>(
    alloc: Global,
    links: &Links<Alpha, DIM>,
    search: &Search,
    first: Dart,
    clash: Clash,
) -> Result<Walk, AllocError>
    requires closed { HasBoundary DIM (IsLive links.now.rows) (links_of links.now.rows) → ⊥ }
    requires clash { MeetsClash DIM (IsLive links.now.rows) (links_of links.now.rows) first search.now.marks.items clash.dart clash.link }
    ensures start { IfOk result (λ walk. walk.start ≡ first) }
    ensures odd { IfOk result (λ walk. IsOddWalk DIM (links_of links.now.rows) first walk.links.items) }
{
    let mut walk = Vec::new(alloc);
    walk_back(links, search, first, clash.dart, &mut walk)?;
    walk.reverse();
    walk.push(clash.link)?;
    let other = links.link(clash.dart, clash.link).unwrap();
    walk_back(links, search, first, other, &mut walk)?;
    Ok(Walk {
        start: first,
        links: walk,
    })
}

/// Puts the links behind the walk that lead from a dart back to the first dart of its component.
fn walk_back<const DIM: usize>(
    links: &Links<Alpha, DIM>,
    search: &Search,
    first: Dart,
    dart: Dart,
    walk: &mut Vec<usize>,
) -> Result<(), AllocError>
    requires closed { HasBoundary DIM (IsLive links.now.rows) (links_of links.now.rows) → ⊥ }
    requires held { AreHeld DIM (IsLive links.now.rows) search.now.marks.items }
    requires led { LeadsBack (links_of links.now.rows) first search.now.marks.items }
    requires reached { IsReached search.now.marks.items dart }
    ensures { OnOk result ((way : List ℕ) × (walk.new.items ≡ walk.old.items ++ way)
        × IsWayBack DIM (links_of links.now.rows) first search.now.marks.items dart way) }
{
    links.see_sound();
    let mut here = dart;
    while here != first {
        let link = usize::from(search.mark(here).unwrap().link);
        walk.push(link)?;
        here = links.link(here, link).unwrap();
    }
    Ok(())
}
