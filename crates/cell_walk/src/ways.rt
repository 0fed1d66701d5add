//! Orbits that are paths or rings: walks in which two words take turns.
ghost use Rattle.std.specs.Prelude.{◌≡◌, ℕ, ◌≤◌, ◌↔◌, ◌⊎◌, length, take, All, Contains, IsTrue, IfSome, OnOk};
ghost use Rattle.map_defs.specs.Rows.{links_of};
ghost use Rattle.map_defs.specs.LinkWords.{LinkWord as MapWord, one_link, two_links, through, inverse_word, IsWithin};
ghost use Rattle.map_defs.specs.Cells.{InOrbit, Leads};
ghost use Rattle.cell_walk.specs.Visits.{IsClosed};
ghost use Rattle.cell_walk.specs.Ways.{IsEither, IsLink, AreWays, IsCourse, IsFollowed};

use crate::found::Found;
use crate::seen::Seen;
use link_rows::Links;
use map_kind::{Dart, Kind, LinkWord};
use std::alloc::AllocError;

/// Two words that a walk follows in turn, `next` first.
#[derive(Clone, Copy)]
pub(crate) struct Way {
    pub(crate) next: LinkWord,
    pub(crate) after: LinkWord,
}

impl Way {
    /// The way on from the dart to which `next` leads.
    pub(crate) fn turned(self) -> Self
        ensures { result ≡ record { next = self.after; after = self.next } }
    {
        Way {
            next: self.after,
            after: self.next,
        }
    }
}

/// The two ways out of a dart.
#[derive(Clone, Copy)]
pub(crate) struct Ways {
    pub(crate) forth: Way,
    pub(crate) back: Way,
}

impl Ways {
    /// The ways in which two words take turns.
    pub(crate) fn taking_turns(one: LinkWord, other: LinkWord) -> Self
        ensures { result ≡ record { forth = record { next = one; after = other }; back = record { next = other; after = one } } }
    {
        Ways {
            forth: Way {
                next: one,
                after: other,
            },
            back: Way {
                next: other,
                after: one,
            },
        }
    }

    /// The ways in which a word leads on and another one back, again and again.
    pub(crate) fn keeping_on(forth: LinkWord, back: LinkWord) -> Self
        ensures { result ≡ record { forth = record { next = forth; after = forth }; back = record { next = back; after = back } } }
    {
        Ways {
            forth: Way {
                next: forth,
                after: forth,
            },
            back: Way {
                next: back,
                after: back,
            },
        }
    }
}

/// How walks go along some words: told once for many orbits.
#[derive(Clone, Copy)]
pub(crate) enum Course {
    /// The words take turns, so that orbits are paths and rings.
    Round(Ways),
    /// Each word is one link: from each dart all are read from one row.
    Links,
    /// All words are looked along from each dart.
    Words,
}

/// How walks go along some words.
pub(crate) fn course_along<K: Kind>(words: &[LinkWord]) -> Course
    ensures { IsCourse K.kind words.now result }
{
    match ways_along::<K>(words) {
        Some(ways) => Course::Round(ways),
        None if are_links(words) => Course::Links,
        None => Course::Words,
    }
}

/// Whether each word is one link.
fn are_links(words: &[LinkWord]) -> bool
    ensures { IsTrue result ↔ All IsLink words.now }
{
    words.iter().all(|word| word.second.is_none())
}

/// The ways along one word or two where each dart's words are one that leads back and one that leads on: the words are
/// inverse to each other, or each to itself. Then orbits are paths and rings, such as the cells of a surface.
fn ways_along<K: Kind>(words: &[LinkWord]) -> Option<Ways>
    ensures same { IfSome result (λ ways. (w : MapWord)
        → Contains words.now w ↔ IsEither ways.forth.next ways.back.next w) }
    ensures turns { IfSome result (λ ways.
        AreWays K.kind ways.forth.next ways.forth.after ways.back.next ways.back.after) }
{
    let (one, other) = match words {
        [only] => (*only, *only),
        [one, other] => (*one, *other),
        _ => return None,
    };
    if inverse_word::<K>(one) == other {
        return Some(Ways::keeping_on(one, other));
    }
    if inverse_word::<K>(one) != one || inverse_word::<K>(other) != other {
        return None;
    }
    Some(Ways::taking_turns(one, other))
}

/// The word that leads back along a word.
fn inverse_word<K: Kind>(word: LinkWord) -> LinkWord
    ensures { result ≡ inverse_word K.kind word }
{
    let last = K::inverse(word.first);
    match word.second {
        None => LinkWord::one(last),
        Some(second) => LinkWord::two(K::inverse(second), last),
    }
}

/// Finds the path or the ring of a dart that was not found before, besides what was.
pub(crate) fn go_round<S: Seen, K: Kind, const DIM: usize>(
    links: &Links<K, DIM>,
    ways: &Ways,
    dart: Dart,
    found: &mut Found<S>,
) -> Result<(), AllocError>
    requires within { (w : MapWord) → IsEither ways.now.forth.next ways.now.back.next w → IsWithin DIM w }
    requires turns { AreWays K.kind ways.now.forth.next ways.now.forth.after ways.now.back.next ways.now.back.after }
    requires closed { IsClosed (Leads (links_of links.now.rows) (IsEither ways.now.forth.next ways.now.back.next)) found.old }
    requires fresh { Contains found.old dart → ⊥ }
    ensures members { OnOk result ((y : ℕ) → Contains found.new y ↔ (Contains found.old y
        ⊎ InOrbit (Leads (links_of links.now.rows) (IsEither ways.now.forth.next ways.now.back.next)) dart y)) }
    ensures before { OnOk result (take (length found.old) found.new ≡ found.old) }
{
    if is_along_links(&ways.forth) && is_along_links(&ways.back) {
        go_round_links(links, ways, dart, found)
    } else {
        go_round_words(links, ways, dart, found)
    }
}

/// Whether both words of a way are one link each.
pub(crate) fn is_along_links(way: &Way) -> bool
    ensures { IsTrue result ↔ (IsLink way.now.next × IsLink way.now.after) }
{
    way.next.second.is_none() && way.after.second.is_none()
}

/// Finds the path or the ring of a dart along words of one link each.
fn go_round_links<S: Seen, K: Kind, const DIM: usize>(
    links: &Links<K, DIM>,
    ways: &Ways,
    dart: Dart,
    found: &mut Found<S>,
) -> Result<(), AllocError>
    requires within { (w : MapWord) → IsEither ways.now.forth.next ways.now.back.next w → IsWithin DIM w }
    requires turns { AreWays K.kind ways.now.forth.next ways.now.forth.after ways.now.back.next ways.now.back.after }
    requires forth { IsLink ways.now.forth.next × IsLink ways.now.forth.after }
    requires back { IsLink ways.now.back.next × IsLink ways.now.back.after }
    requires closed { IsClosed (Leads (links_of links.now.rows) (IsEither ways.now.forth.next ways.now.back.next)) found.old }
    requires fresh { Contains found.old dart → ⊥ }
    ensures members { OnOk result ((y : ℕ) → Contains found.new y ↔ (Contains found.old y
        ⊎ InOrbit (Leads (links_of links.now.rows) (IsEither ways.now.forth.next ways.now.back.next)) dart y)) }
    ensures before { OnOk result (take (length found.old) found.new ≡ found.old) }
{
    let Ways { forth, back } = *ways;
    found.put(dart)?;
    follow_links(links, forth.next.first, forth.after.first, dart, found)?;
    follow_links(links, back.next.first, back.after.first, dart, found)
}

/// Finds the path or the ring of a dart along any words.
fn go_round_words<S: Seen, K: Kind, const DIM: usize>(
    links: &Links<K, DIM>,
    ways: &Ways,
    dart: Dart,
    found: &mut Found<S>,
) -> Result<(), AllocError>
    requires within { (w : MapWord) → IsEither ways.now.forth.next ways.now.back.next w → IsWithin DIM w }
    requires turns { AreWays K.kind ways.now.forth.next ways.now.forth.after ways.now.back.next ways.now.back.after }
    requires closed { IsClosed (Leads (links_of links.now.rows) (IsEither ways.now.forth.next ways.now.back.next)) found.old }
    requires fresh { Contains found.old dart → ⊥ }
    ensures members { OnOk result ((y : ℕ) → Contains found.new y ↔ (Contains found.old y
        ⊎ InOrbit (Leads (links_of links.now.rows) (IsEither ways.now.forth.next ways.now.back.next)) dart y)) }
    ensures before { OnOk result (take (length found.old) found.new ≡ found.old) }
{
    found.put(dart)?;
    follow_way(links, &ways.forth, dart, found)?;
    follow_way(links, &ways.back, dart, found)
}

/// Follows a way from a dart that was found, until it leads nowhere or to a dart that was found.
fn follow_way<S: Seen, K: Kind, const DIM: usize>(
    links: &Links<K, DIM>,
    way: &Way,
    dart: Dart,
    found: &mut Found<S>,
) -> Result<(), AllocError>
    requires next { IsWithin DIM way.now.next }
    requires after { IsWithin DIM way.now.after }
    requires met { Contains found.old dart }
    ensures { OnOk result (IsFollowed K.kind (links_of links.now.rows) way.now.next way.now.after dart found.old found.new) }
{
    match (way.next.second, way.after.second) {
        (Some(second), Some(_)) if way.next == way.after => {
            follow_pair(links, way.next.first, second, dart, found)
        }
        _ => follow_words(links, way, dart, found),
    }
}

/// Follows two links in turn from a dart that was found, `one` first, until they lead nowhere or to a dart that was found.
fn follow_links<S: Seen, K: Kind, const DIM: usize>(
    links: &Links<K, DIM>,
    one: usize,
    other: usize,
    dart: Dart,
    found: &mut Found<S>,
) -> Result<(), AllocError>
    requires one { one ≤ DIM }
    requires other { other ≤ DIM }
    requires met { Contains found.old dart }
    ensures { OnOk result (IsFollowed K.kind (links_of links.now.rows) (one_link one) (one_link other) dart found.old found.new) }
{
    links.see_sound();
    let mut next = one;
    let mut after = other;
    let mut at = dart;
    while let Some(reached) = found.unmet(links.number_at(at, next)) {
        found.put(reached)?;
        at = reached;
        let last = next;
        next = after;
        after = last;
    }
    Ok(())
}

/// Follows a word of two links again and again from a dart that was found, until it leads nowhere or to a dart that was found.
fn follow_pair<S: Seen, K: Kind, const DIM: usize>(
    links: &Links<K, DIM>,
    first: usize,
    second: usize,
    dart: Dart,
    found: &mut Found<S>,
) -> Result<(), AllocError>
    requires first { first ≤ DIM }
    requires second { second ≤ DIM }
    requires met { Contains found.old dart }
    ensures { OnOk result (IsFollowed K.kind (links_of links.now.rows) (two_links first second) (two_links first second) dart found.old found.new) }
{
    links.see_sound();
    let mut at = dart;
    while let Some(reached) = found.unmet(number_through(links, first, second, at)) {
        found.put(reached)?;
        at = reached;
    }
    Ok(())
}

/// Follows a way along any words from a dart that was found, until it leads nowhere or to a dart that was found.
fn follow_words<S: Seen, K: Kind, const DIM: usize>(
    links: &Links<K, DIM>,
    way: &Way,
    dart: Dart,
    found: &mut Found<S>,
) -> Result<(), AllocError>
    requires next { IsWithin DIM way.now.next }
    requires after { IsWithin DIM way.now.after }
    requires met { Contains found.old dart }
    ensures { OnOk result (IsFollowed K.kind (links_of links.now.rows) way.now.next way.now.after dart found.old found.new) }
{
    links.see_sound();
    let mut way = *way;
    let mut at = dart;
    while let Some(next) = found.unmet(number_along(links, &way.next, at)) {
        found.put(next)?;
        at = next;
        way = way.turned();
    }
    Ok(())
}

/// The number of the dart to which a word leads; 0 where a link on its way is free.
#[inline(always)]
pub(crate) fn number_along<K: Kind, const DIM: usize>(
    links: &Links<K, DIM>,
    word: &LinkWord,
    dart: Dart,
) -> u32
    requires { IsWithin DIM word.now }
    ensures { result ≡ through (links_of links.now.rows) word.now dart }
{
    match word.second {
        Some(second) => number_through(links, word.first, second, dart),
        None => links.number_at(dart, word.first),
    }
}

/// The number of the dart to which two links lead, one after the other; 0 where one on the way is free.
#[inline(always)]
fn number_through<K: Kind, const DIM: usize>(
    links: &Links<K, DIM>,
    first: usize,
    second: usize,
    dart: Dart,
) -> u32
    requires first { first ≤ DIM }
    requires second { second ≤ DIM }
    ensures { result ≡ through (links_of links.now.rows) (two_links first second) dart }
{
    match links.link(dart, first) {
        Some(middle) => links.number_at(middle, second),
        None => 0,
    }
}
