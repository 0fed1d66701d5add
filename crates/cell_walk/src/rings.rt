//! Paths and rings of a whole map: their darts are marked one by one, without a list of them.
ghost use Rattle.std.specs.Prelude.{◌≤◌, length};
ghost use Rattle.map_defs.specs.Rows.{IsLive, links_of};
ghost use Rattle.map_defs.specs.LinkWords.{one_link, IsWithin};
ghost use Rattle.map_defs.specs.Cells.{Leads};
ghost use Rattle.cell_walk.specs.Ways.{IsEither, AreWays, IsFollowed};
ghost use Rattle.cell_walk.specs.Marks.{IsMarked, IsMarkedMore, IsOrbitFound};

use crate::marks::newly_marked;
use crate::orbits::number_from;
use link_rows::Links;
use map_kind::{Dart, Kind, LinkWord};

/// Marks the path or the ring of a live dart, around which two links take turns both ways.
#[inline(always)]
pub(crate) fn mark_turns<K: Kind, const DIM: usize>(
    links: &Links<K, DIM>,
    forth: (usize, usize),
    back: (usize, usize),
    dart: Dart,
    marks: &mut [bool],
)
    requires forth { (forth.0 ≤ DIM) × (forth.1 ≤ DIM) }
    requires back { (back.0 ≤ DIM) × (back.1 ≤ DIM) }
    requires turns { AreWays K.kind (one_link forth.0) (one_link forth.1) (one_link back.0) (one_link back.1) }
    requires live { IsLive links.now.rows dart }
    requires places { length links.now.rows ≤ length marks.old }
    requires nothing { IsMarked marks.old 0 }
    ensures { IsMarkedMore (IsOrbitFound (Leads (links_of links.now.rows) (IsEither (one_link forth.0) (one_link back.0))) dart) marks.old marks.new }
{
    links.see_sound();
    marks[dart.number() as usize] = true;
    mark_links(links, forth.0, forth.1, dart, marks);
    mark_links(links, back.0, back.1, dart, marks);
}

/// Marks the path or the ring of a live dart, along which one word leads on and another one back.
#[inline(always)]
pub(crate) fn mark_again<K: Kind, const DIM: usize>(
    links: &Links<K, DIM>,
    forth: LinkWord,
    back: LinkWord,
    dart: Dart,
    marks: &mut [bool],
)
    requires forth { IsWithin DIM forth }
    requires back { IsWithin DIM back }
    requires turns { AreWays K.kind forth forth back back }
    requires live { IsLive links.now.rows dart }
    requires places { length links.now.rows ≤ length marks.old }
    requires nothing { IsMarked marks.old 0 }
    ensures { IsMarkedMore (IsOrbitFound (Leads (links_of links.now.rows) (IsEither forth back)) dart) marks.old marks.new }
{
    links.see_sound();
    marks[dart.number() as usize] = true;
    mark_word(links, forth, dart, marks);
    mark_word(links, back, dart, marks);
}

/// Marks the darts to which two links in turn lead from a marked dart, `one` first, until they lead nowhere or to a dart that was marked.
#[inline(always)]
fn mark_links<K: Kind, const DIM: usize>(
    links: &Links<K, DIM>,
    one: usize,
    other: usize,
    dart: Dart,
    marks: &mut [bool],
)
    requires one { one ≤ DIM }
    requires other { other ≤ DIM }
    requires live { IsLive links.now.rows dart }
    requires places { length links.now.rows ≤ length marks.old }
    requires nothing { IsMarked marks.old 0 }
    requires met { IsMarked marks.old dart }
    ensures { IsMarkedMore (IsFollowed K.kind (links_of links.now.rows) (one_link one) (one_link other) dart) marks.old marks.new }
{
    links.see_sound();
    let mut at = dart;
    while let Some(middle) = newly_marked(links.live_row(at).entry(one), marks) {
        match newly_marked(links.live_row(middle).entry(other), marks) {
            Some(reached) => at = reached,
            None => return,
        }
    }
}

/// Marks the darts to which a word leads again and again from a marked dart, until it leads nowhere or to a dart that was marked.
#[inline(always)]
fn mark_word<K: Kind, const DIM: usize>(
    links: &Links<K, DIM>,
    word: LinkWord,
    dart: Dart,
    marks: &mut [bool],
)
    requires within { IsWithin DIM word }
    requires live { IsLive links.now.rows dart }
    requires places { length links.now.rows ≤ length marks.old }
    requires nothing { IsMarked marks.old 0 }
    requires met { IsMarked marks.old dart }
    ensures { IsMarkedMore (IsFollowed K.kind (links_of links.now.rows) word word dart) marks.old marks.new }
{
    links.see_sound();
    let mut at = dart;
    while let Some(reached) = newly_marked(number_from(links, links.live_row(at), word), marks) {
        at = reached;
    }
}
