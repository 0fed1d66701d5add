//! Orbits that are paths or rings, walked from nothing: a walk along such an orbit need not look through what it has found,
//! for it can only come back where it began, or where it stands. The proof does not rest on that: darts that were found
//! twice would be listed once.
ghost use Rattle.std.specs.Prelude.{◌≡◌, ◌≢◌, ℕ, ◌≤◌, ◌↔◌, ◌⊎◌, Contains, IfOk, IfSome, IfNone, OnOk};
ghost use Rattle.std.specs.List.Sorted.{IsStrictlyIncreasing};
ghost use Rattle.map_defs.specs.Rows.{links_of};
ghost use Rattle.map_defs.specs.Kind.{inverse};
ghost use Rattle.map_defs.specs.LinkWords.{LinkWord as MapWord, one_link, IsWithin};
ghost use Rattle.map_defs.specs.Cells.{InOrbit, Leads};
ghost use Rattle.cell_walk.specs.Ways.{IsEither, AreWays, IsFollowed};

use crate::ways::{Way, Ways, number_along};
use link_rows::Links;
use map_kind::{Dart, Kind, LinkWord, is_generalized};
use std::alloc::{AllocError, Global};

/// For so many darts room is made at first.
const FEW: usize = 16;

/// The path or the ring of a dart, ascending.
pub(crate) fn round<K: Kind, const DIM: usize>(
    alloc: Global,
    links: &Links<K, DIM>,
    ways: &Ways,
    dart: Dart,
) -> Result<Vec<Dart>, AllocError>
    requires within { (w : MapWord) → IsEither ways.now.forth.next ways.now.back.next w → IsWithin DIM w }
    requires turns { AreWays K.kind ways.now.forth.next ways.now.forth.after ways.now.back.next ways.now.back.after }
    ensures members { IfOk result (λ round. (y : ℕ) → Contains round.items y
        ↔ InOrbit (Leads (links_of links.now.rows) (IsEither ways.now.forth.next ways.now.back.next)) dart y) }
    ensures ascending { IfOk result (λ round. IsStrictlyIncreasing round.items) }
{
    let mut darts = match short_ring(links, ways.forth.next, ways.back.next, dart) {
        Some(ring) => listed(alloc, &ring)?,
        None => both_ways(alloc, links, ways, dart)?,
    };
    darts.sort_unstable();
    darts.dedup();
    Ok(darts)
}

/// The darts of a short ring, in a list.
fn listed(alloc: Global, ring: &[Dart; 4]) -> Result<Vec<Dart>, AllocError>
    ensures { IfOk result (λ darts. darts.items ≡ ring.now) }
{
    let mut darts = Vec::with_capacity(alloc, ring.len())?;
    darts.extend_from_slice(ring)?;
    Ok(darts)
}

/// The darts of the ring of a dart, if it is one of four along two links of a generalized map, as the edges of surfaces are. Some
/// of them may be one dart.
fn short_ring<K: Kind, const DIM: usize>(
    links: &Links<K, DIM>,
    forth: LinkWord,
    back: LinkWord,
    dart: Dart,
) -> Option<[Dart; 4]>
    requires forth { IsWithin DIM forth }
    requires back { IsWithin DIM back }
    ensures { IfSome result (λ ring. (y : ℕ) → Contains ring y
        ↔ InOrbit (Leads (links_of links.now.rows) (IsEither forth back)) dart y) }
{
    match (forth.second, back.second) {
        (None, None) if is_generalized::<K>() => {
            ring_of_four(links, forth.first, back.first, dart)
        }
        _ => None,
    }
}

/// The darts of the ring of a dart along two links that are each their own inverse, where these lead to two darts from which they
/// lead on to one dart, each link from where the other one led.
fn ring_of_four<K: Kind, const DIM: usize>(
    links: &Links<K, DIM>,
    one: usize,
    other: usize,
    dart: Dart,
) -> Option<[Dart; 4]>
    requires one { one ≤ DIM }
    requires other { other ≤ DIM }
    requires own { (inverse K.kind one ≡ one) × (inverse K.kind other ≡ other) }
    ensures { IfSome result (λ ring. (y : ℕ) → Contains ring y
        ↔ InOrbit (Leads (links_of links.now.rows) (IsEither (one_link one) (one_link other))) dart y) }
{
    // Links name live darts.
    links.see_sound();
    let row = links.row(dart)?;
    let left = Dart::new(row.entry(one))?;
    let right = Dart::new(row.entry(other))?;
    let far = Dart::new(links.live_row(left).entry(other))?;
    if links.live_row(right).entry(one) != far.number() {
        return None;
    }
    Some([dart, left, right, far])
}

/// The darts of the path or the ring of a dart, walked both ways; some may stand there twice. In a ring the way back ends at once,
/// at the last dart of the way forth.
fn both_ways<K: Kind, const DIM: usize>(
    alloc: Global,
    links: &Links<K, DIM>,
    ways: &Ways,
    dart: Dart,
) -> Result<Vec<Dart>, AllocError>
    requires within { (w : MapWord) → IsEither ways.now.forth.next ways.now.back.next w → IsWithin DIM w }
    requires turns { AreWays K.kind ways.now.forth.next ways.now.forth.after ways.now.back.next ways.now.back.after }
    ensures { IfOk result (λ round. (y : ℕ) → Contains round.items y
        ↔ InOrbit (Leads (links_of links.now.rows) (IsEither ways.now.forth.next ways.now.back.next)) dart y) }
{
    let mut darts = Vec::with_capacity(alloc, FEW)?;
    darts.push(dart)?;
    go_on(links, &ways.forth, dart, dart, &mut darts)?;
    let end = darts[darts.len() - 1];
    go_on(links, &ways.back, dart, end, &mut darts)?;
    Ok(darts)
}

/// Follows a way from a dart, until it leads nowhere, to the end, or to the dart where it stands.
fn go_on<K: Kind, const DIM: usize>(
    links: &Links<K, DIM>,
    way: &Way,
    dart: Dart,
    end: Dart,
    darts: &mut Vec<Dart>,
) -> Result<(), AllocError>
    requires next { IsWithin DIM way.now.next }
    requires after { IsWithin DIM way.now.after }
    requires met { Contains darts.old.items dart }
    requires end { Contains darts.old.items end }
    ensures { OnOk result (IsFollowed K.kind (links_of links.now.rows) way.now.next way.now.after dart darts.old.items darts.new.items) }
{
    match (way.next.second, way.after.second) {
        (None, None) => go_on_links(links, way.next.first, way.after.first, dart, end, darts),
        _ => go_on_words(links, way, dart, end, darts),
    }
}

/// Follows a way of two words of one link each, by their links.
fn go_on_links<K: Kind, const DIM: usize>(
    links: &Links<K, DIM>,
    next: usize,
    after: usize,
    dart: Dart,
    end: Dart,
    darts: &mut Vec<Dart>,
) -> Result<(), AllocError>
    requires next { next ≤ DIM }
    requires after { after ≤ DIM }
    requires met { Contains darts.old.items dart }
    requires end { Contains darts.old.items end }
    ensures { OnOk result (IsFollowed K.kind (links_of links.now.rows) (one_link next) (one_link after) dart darts.old.items darts.new.items) }
{
    // Links name live darts.
    links.see_sound();
    let mut number = links.number_at(dart, next);
    let mut at = dart;
    while let Some(middle) = onward(number, at, end) {
        darts.push(middle)?;
        let Some(reached) = onward(links.live_row(middle).entry(after), middle, end) else {
            return Ok(());
        };
        darts.push(reached)?;
        number = links.live_row(reached).entry(next);
        at = reached;
    }
    Ok(())
}

/// Follows a way of any words.
fn go_on_words<K: Kind, const DIM: usize>(
    links: &Links<K, DIM>,
    way: &Way,
    dart: Dart,
    end: Dart,
    darts: &mut Vec<Dart>,
) -> Result<(), AllocError>
    requires next { IsWithin DIM way.now.next }
    requires after { IsWithin DIM way.now.after }
    requires met { Contains darts.old.items dart }
    requires end { Contains darts.old.items end }
    ensures { OnOk result (IsFollowed K.kind (links_of links.now.rows) way.now.next way.now.after dart darts.old.items darts.new.items) }
{
    links.see_sound();
    let mut turn = (&way.next, &way.after);
    let mut at = dart;
    while let Some(next) = onward(number_along(links, turn.0, at), at, end) {
        darts.push(next)?;
        at = next;
        turn = (turn.1, turn.0);
    }
    Ok(())
}

/// The dart of a number, unless it is the end, or the dart from which a word led to it.
fn onward(number: u32, from: Dart, end: Dart) -> Option<Dart>
    ensures some { IfSome result (λ next. (next ≡ number) × (number ≢ 0)) }
    ensures none { IfNone result (number ≢ 0 → (number ≡ end) ⊎ (number ≡ from)) }
{
    if number == end.number() || number == from.number() {
        return None;
    }
    Dart::new(number)
}
