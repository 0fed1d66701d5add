//! Darts that need no look along a word of a dimension's cells, since it leads to a dart with the same id, and the dart to
//! which it led is in the cell still.
ghost use Rattle.std.specs.Prelude.{◌≡◌, ◌≢◌, ℕ, ◌↔◌, Contains, IsTrue, slice_index};
ghost use Rattle.map_defs.specs.LinkWords.{LinkWord as MapWord, IsCellWord, IsWithin};
ghost use Rattle.map_defs.specs.Rows.{links_of};
ghost use Rattle.map_defs.specs.Cells.{InCell};
ghost use Rattle.store_defs.specs.Labelings.{id_of};

use crate::touched::number_along;
use attr_pool::Labels;
use cell_walk::follow;
use link_rows::{Links, Row};
use map_kind::{Dart, Kind, LinkWord};

/// How many times a walk goes along both its words before it is given up.
const TURNS: usize = 2;

/// Whether a dart needs no look along a word that leads it to the dart of one number, and led it before to that of another, 0
/// for none. A no says nothing.
#[inline(always)]
pub(crate) fn is_settled<K: Kind, const DIM: usize>(
    links: &Links<K, DIM>,
    labels: &Labels<DIM>,
    dim: usize,
    words: &[LinkWord],
    dart: Dart,
    now: u32,
    before: u32,
) -> bool
    requires { (w : MapWord) → Contains words.now w ↔ (IsCellWord K.kind dim w × IsWithin DIM w) }
    ensures alike { IsTrue result → now ≢ 0 → id_of labels.now dim now ≡ id_of labels.now dim dart }
    ensures kept { IsTrue result → (now ≢ 0 → InCell K.kind (links_of links.now.rows) dim dart now) → before ≢ 0
        → InCell K.kind (links_of links.now.rows) dim dart before }
{
    let Some(first) = Dart::new(now) else {
        return before == 0;
    };
    if labels.id(dim, first) != labels.id(dim, dart) {
        return false;
    }
    is_kept(links, dim, words, dart, first, before)
}

/// Whether there is no dart of a number, or it is live and few steps along words of a dimension's cells lead from one dart to
/// it. The dart `start` is not looked at again.
fn is_kept<K: Kind, const DIM: usize>(
    links: &Links<K, DIM>,
    dim: usize,
    words: &[LinkWord],
    start: Dart,
    from: Dart,
    number: u32,
) -> bool
    requires { (w : MapWord) → Contains words.now w ↔ (IsCellWord K.kind dim w × IsWithin DIM w) }
    ensures { IsTrue result → number ≢ 0 → InCell K.kind (links_of links.now.rows) dim from number }
{
    let Some(goal) = Dart::new(number) else {
        return true;
    };
    links.is_live(goal) && is_near(links, dim, words, start, from, goal)
}

/// Whether few steps along words of a dimension's cells lead from one dart to another, without the dart `start`. A no says
/// nothing. It takes no memory, and costs so few steps however large the cell.
#[inline(never)]
fn is_near<K: Kind, const DIM: usize>(
    links: &Links<K, DIM>,
    dim: usize,
    words: &[LinkWord],
    start: Dart,
    from: Dart,
    goal: Dart,
) -> bool
    requires { (w : MapWord) → Contains words.now w ↔ (IsCellWord K.kind dim w × IsWithin DIM w) }
    ensures { IsTrue result → InCell K.kind (links_of links.now.rows) dim from goal }
{
    // A map has links 0 to 8 at most.
    links.see_sound();
    let Some(row) = links.row(from) else {
        return false;
    };
    for word in words {
        if is_near_by(links, dim, words, *word, row, start, from, goal) {
            return true;
        }
    }
    false
}

/// Whether few steps lead from one dart, which has this row, to another, the first of them along a word, and not to the dart
/// `start`.
fn is_near_by<K: Kind, const DIM: usize>(
    links: &Links<K, DIM>,
    dim: usize,
    words: &[LinkWord],
    first: LinkWord,
    row: &Row<DIM>,
    start: Dart,
    from: Dart,
    goal: Dart,
) -> bool
    requires words { (w : MapWord) → Contains words.now w ↔ (IsCellWord K.kind dim w × IsWithin DIM w) }
    requires first { Contains words.now first }
    requires row { (t : ℕ) → slice_index row.now t ≡ links_of links.now.rows t from }
    ensures { IsTrue result → InCell K.kind (links_of links.now.rows) dim from goal }
{
    // A map has links 0 to 8 at most.
    links.see_sound();
    let Some(next) = Dart::new(number_along(links, first, row, from)) else {
        return false;
    };
    if next == goal {
        return true;
    }
    next != start && is_near_behind(links, dim, words, first, from, next, goal)
}

/// Whether few steps along another word and a word in turn lead from one dart to another, the first of them not to the dart
/// `start`.
fn is_near_behind<K: Kind, const DIM: usize>(
    links: &Links<K, DIM>,
    dim: usize,
    words: &[LinkWord],
    first: LinkWord,
    start: Dart,
    from: Dart,
    goal: Dart,
) -> bool
    requires words { (w : MapWord) → Contains words.now w ↔ (IsCellWord K.kind dim w × IsWithin DIM w) }
    requires first { Contains words.now first }
    ensures { IsTrue result → InCell K.kind (links_of links.now.rows) dim from goal }
{
    for second in words {
        if turns_to(links, dim, *second, first, start, from, goal) {
            return true;
        }
    }
    false
}

/// Whether few steps along two words of a dimension's cells in turn lead from one dart to another, none along the first word
/// to the dart `start`.
fn turns_to<K: Kind, const DIM: usize>(
    links: &Links<K, DIM>,
    dim: usize,
    first: LinkWord,
    second: LinkWord,
    start: Dart,
    from: Dart,
    goal: Dart,
) -> bool
    requires first { IsCellWord K.kind dim first }
    requires first_within { IsWithin DIM first }
    requires second { IsCellWord K.kind dim second }
    requires second_within { IsWithin DIM second }
    ensures { IsTrue result → InCell K.kind (links_of links.now.rows) dim from goal }
{
    let mut at = from;
    for _turn in 0..TURNS {
        let Some(between) = follow(links, first, at) else {
            return false;
        };
        if between == goal {
            return true;
        }
        if between == start {
            return false;
        }
        let Some(next) = follow(links, second, between) else {
            return false;
        };
        if next == goal {
            return true;
        }
        at = next;
    }
    false
}
