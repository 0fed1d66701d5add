ghost use Rattle.std.specs.Prelude.{◌≡◌, ◌≢◌, ℕ, ◌+◌, ◌*◌, ◌^◌, ◌≤◌, ◌<◌, length, slice_index, Contains, IsTrue, IfOk, vec_len, vec_capacity};
ghost use Rattle.map_defs.specs.Kind.{alpha, beta};
ghost use Rattle.map_defs.specs.Rows.{links_of, made, IsLive};
ghost use Rattle.cell_edit.specs.Stars.{star_of};
ghost use Rattle.cell_edit.specs.Writing.{WritesEntries, Appends};
ghost use Rattle.face_center.specs.Hanging.{tip_of, before, star_link, tip_link, IsOldEntry, IsNewEntry, IsHungEntry, AreHungEntries, CanPair, CanHang, HangsEdges};

use crate::writing::{push_joined, room_for_edges};
use cell_edit::{Stars, push_link};
use link_rows::{BornRows, Change, Edit, Links, Row};
use map_kind::{Dart, Kind, is_generalized};
use std::alloc::{AllocError, Global};

/// Where edges are hung.
#[derive(Clone, Copy)]
pub(crate) enum Hanging {
    /// At the darts of one corner, all as one dangling edge.
    Corner,
    /// At all darts of a face, as the edges to a vertex in its middle.
    Face,
}

/// The darts at which a new edge begins and ends.
#[derive(Drop)]
struct Edge {
    begin: Dart,
    end: Dart,
}

/// The edit that hangs an edge on each of these darts, which are ascending.
///
/// It costs the number of its darts, for each link of the map, times a logarithm.
pub(crate) fn hanging_edit<K: Kind, const DIM: usize>(
    alloc: Global,
    links: &Links<K, DIM>,
    hanging: Hanging,
    darts: Vec<Dart>,
) -> Result<Edit, AllocError>
    requires { CanHang K.kind links.now.rows hanging (record { keys = darts.items; made = made links.now.rows }) }
    ensures { IfOk result (HangsEdges K.kind DIM links.now.rows hanging (record { keys = darts.items; made = made links.now.rows })) }
{
    let stars = Stars::new(darts, links.made());
    let changes = hung_changes(alloc, links, hanging, &stars)?;
    Ok(Edit {
        births: 2 * stars.births(),
        deaths: Vec::new(alloc),
        changes,
        born: BornRows::none(alloc),
    })
}

/// The changes by which an edge is hung on each of the darts.
fn hung_changes<K: Kind, const DIM: usize>(
    alloc: Global,
    links: &Links<K, DIM>,
    hanging: Hanging,
    stars: &Stars,
) -> Result<Vec<Change>, AllocError>
    requires { CanHang K.kind links.now.rows hanging stars.now }
    ensures { IfOk result (λ changes. WritesEntries (links_of links.now.rows)
        (AreHungEntries K.kind hanging (links_of links.now.rows) (star_of stars.now) (tip_of stars.now) (DIM + 1) stars.now.keys) changes.items) }
{
    // A map has links 0 to 8 at most.
    links.see_sound();
    let darts = stars.darts();
    let mut changes = room_for_edges(alloc, darts.len(), links.dimension())?;
    for place in 0..darts.len() {
        push_dart(
            links,
            hanging,
            stars,
            darts[place],
            &edge_at(stars, place),
            &mut changes,
        );
    }
    Ok(changes)
}

/// Appends the changes by which its new edge is hung on one dart. There is room for them.
fn push_dart<K: Kind, const DIM: usize>(
    links: &Links<K, DIM>,
    hanging: Hanging,
    stars: &Stars,
    dart: Dart,
    edge: &Edge,
    changes: &mut Vec<Change>,
)
    requires can { CanHang K.kind links.now.rows hanging stars.now }
    requires key { Contains stars.now.keys dart }
    requires begin { edge.now.begin ≡ star_of stars.now dart }
    requires end { edge.now.end ≡ tip_of stars.now dart }
    requires room { vec_len changes.old + (2 * DIM + 4) ≤ vec_capacity changes.old }
    ensures capacity { vec_capacity changes.new ≡ vec_capacity changes.old }
    ensures few { vec_len changes.new ≤ vec_len changes.old + (2 * DIM + 4) }
    ensures entries { Appends (links_of links.now.rows)
        (IsHungEntry K.kind hanging (links_of links.now.rows) (star_of stars.now) (tip_of stars.now) (DIM + 1) dart) changes.old.items changes.new.items }
{
    // A map has links 0 to 8 at most.
    links.see_sound();
    let row = links.live_row(dart);
    push_old(links, row, hanging, dart, edge, changes);
    push_new(links, row, hanging, stars, dart, edge, changes);
}

/// Appends the changes of old darts, by which links 1 and 0 lead to the new edge of a dart with this row. There is room for
/// them.
fn push_old<K: Kind, const DIM: usize>(
    links: &Links<K, DIM>,
    row: &Row<DIM>,
    hanging: Hanging,
    dart: Dart,
    edge: &Edge,
    changes: &mut Vec<Change>,
)
    requires row { (t : ℕ) → slice_index row.now t ≡ links_of links.now.rows t dart }
    requires live { IsLive links.now.rows (before K.kind hanging (links_of links.now.rows) dart) }
    requires room { vec_len changes.old + 2 ≤ vec_capacity changes.old }
    ensures capacity { vec_capacity changes.new ≡ vec_capacity changes.old }
    ensures few { vec_len changes.new ≤ vec_len changes.old + 2 }
    ensures entries { (star tip : ℕ → ℕ) → edge.now.begin ≡ star dart → edge.now.end ≡ tip dart
        → Appends (links_of links.now.rows) (IsOldEntry K.kind hanging (links_of links.now.rows) star tip dart) changes.old.items changes.new.items }
{
    // A map has links 0 to 2 at least, and to 8 at most.
    links.see_sound();
    changes.push_reserved(Change::new(
        before(links, row, hanging, dart),
        1,
        led_before(links, row, hanging, dart),
        edge.begin.number(),
    ));
    if is_generalized::<K>() {
        return;
    }
    changes.push_reserved(Change::new(dart, 0, row.entry(0), edge.end.number()));
}

/// Appends the changes of the two new darts of a dart with this row. There is room for them.
fn push_new<K: Kind, const DIM: usize>(
    links: &Links<K, DIM>,
    row: &Row<DIM>,
    hanging: Hanging,
    stars: &Stars,
    dart: Dart,
    edge: &Edge,
    changes: &mut Vec<Change>,
)
    requires can { CanHang K.kind links.now.rows hanging stars.now }
    requires key { Contains stars.now.keys dart }
    requires row { (t : ℕ) → slice_index row.now t ≡ links_of links.now.rows t dart }
    requires begin { edge.now.begin ≡ star_of stars.now dart }
    requires end { edge.now.end ≡ tip_of stars.now dart }
    requires room { vec_len changes.old + (2 * DIM + 2) ≤ vec_capacity changes.old }
    ensures capacity { vec_capacity changes.new ≡ vec_capacity changes.old }
    ensures few { vec_len changes.new ≤ vec_len changes.old + (2 * DIM + 2) }
    ensures entries { Appends (links_of links.now.rows)
        (IsNewEntry K.kind hanging (links_of links.now.rows) (star_of stars.now) (tip_of stars.now) (DIM + 1) dart) changes.old.items changes.new.items }
{
    // A map has links 0 to 2 at least, and to 8 at most.
    links.see_sound();
    push_low(links, row, hanging, stars, dart, edge, changes);
    let row = links.live_row(before(links, row, hanging, dart));
    for at in 3..links.dimension() + 1 {
        let (begin_link, end_link) = high_links(links, row, hanging, stars, dart, at);
        push_link(edge.begin, at, begin_link, changes);
        push_link(edge.end, at, end_link, changes);
    }
}

/// Appends the changes of links 0 to 2 of the two new darts of a dart with this row. There is room for them.
fn push_low<K: Kind, const DIM: usize>(
    links: &Links<K, DIM>,
    row: &Row<DIM>,
    hanging: Hanging,
    stars: &Stars,
    dart: Dart,
    edge: &Edge,
    changes: &mut Vec<Change>,
)
    requires can { CanHang K.kind links.now.rows hanging stars.now }
    requires key { Contains stars.now.keys dart }
    requires row { (t : ℕ) → slice_index row.now t ≡ links_of links.now.rows t dart }
    requires begin { edge.now.begin ≡ star_of stars.now dart }
    requires end { edge.now.end ≡ tip_of stars.now dart }
    requires room { vec_len changes.old + 6 ≤ vec_capacity changes.old }
    ensures capacity { vec_capacity changes.new ≡ vec_capacity changes.old }
    ensures few { vec_len changes.new ≤ vec_len changes.old + 6 }
    ensures entries { Appends (links_of links.now.rows)
        (IsNewEntry K.kind hanging (links_of links.now.rows) (star_of stars.now) (tip_of stars.now) 3 dart) changes.old.items changes.new.items }
{
    if is_generalized::<K>() {
        push_low_general(links, row, hanging, stars, dart, edge, changes);
        return;
    }
    let (begin_link, end_link) = side_links(links, row, hanging, stars, dart, edge);
    push_joined(edge.begin, 0, before(links, row, hanging, dart), changes);
    push_joined(edge.end, 0, edge.begin, changes);
    push_joined(edge.begin, 1, edge.end, changes);
    push_joined(edge.end, 1, dart, changes);
    push_link(edge.begin, 2, begin_link, changes);
    push_link(edge.end, 2, end_link, changes);
}

/// Appends the changes of links 0 to 2 of the two new darts of a dart with this row, in a generalized map. There is room for
/// them.
fn push_low_general<K: Kind, const DIM: usize>(
    links: &Links<K, DIM>,
    row: &Row<DIM>,
    hanging: Hanging,
    stars: &Stars,
    dart: Dart,
    edge: &Edge,
    changes: &mut Vec<Change>,
)
    requires general { K.kind ≡ alpha }
    requires can { CanHang K.kind links.now.rows hanging stars.now }
    requires key { Contains stars.now.keys dart }
    requires row { (t : ℕ) → slice_index row.now t ≡ links_of links.now.rows t dart }
    requires begin { edge.now.begin ≡ star_of stars.now dart }
    requires end { edge.now.end ≡ tip_of stars.now dart }
    requires room { vec_len changes.old + 6 ≤ vec_capacity changes.old }
    ensures capacity { vec_capacity changes.new ≡ vec_capacity changes.old }
    ensures few { vec_len changes.new ≤ vec_len changes.old + 6 }
    ensures entries { Appends (links_of links.now.rows)
        (IsNewEntry K.kind hanging (links_of links.now.rows) (star_of stars.now) (tip_of stars.now) 3 dart) changes.old.items changes.new.items }
{
    // A map has links 0 to 2 at least.
    links.see_sound();
    let (begin_link, end_link) = edge_numbers(stars, row.entry(1));
    let turned = turned_link(links, row, hanging, stars, dart, end_link);
    push_joined(edge.begin, 0, edge.end, changes);
    push_joined(edge.end, 0, edge.begin, changes);
    push_joined(edge.begin, 1, dart, changes);
    push_link(edge.end, 1, turned, changes);
    push_link(edge.begin, 2, begin_link, changes);
    push_link(edge.end, 2, end_link, changes);
}

/// The number at link 1 of the dart at which the new edge of a dart with this row ends, in a generalized map; 0 where it stays
/// free. At a corner it is that at link 2.
fn turned_link<K: Kind, const DIM: usize>(
    links: &Links<K, DIM>,
    row: &Row<DIM>,
    hanging: Hanging,
    stars: &Stars,
    dart: Dart,
    end_link: u32,
) -> u32
    requires general { K.kind ≡ alpha }
    requires can { CanHang K.kind links.now.rows hanging stars.now }
    requires key { Contains stars.now.keys dart }
    requires row { (t : ℕ) → slice_index row.now t ≡ links_of links.now.rows t dart }
    requires next { end_link ≡ tip_of stars.now (links_of links.now.rows 1 dart) }
    ensures { result ≡ tip_link K.kind hanging (links_of links.now.rows) (star_of stars.now) (tip_of stars.now) dart 1 }
{
    // A map has links 0 to 2 at least.
    links.see_sound();
    match hanging {
        Hanging::Corner => end_link,
        Hanging::Face => edge_numbers(stars, row.entry(0)).1,
    }
}

/// The numbers at link 2 of the darts at which the new edge of a dart with this row begins and ends, in a combinatorial map; 0
/// where the link stays free. On a face starts lead to ends of the next sides.
fn side_links<K: Kind, const DIM: usize>(
    links: &Links<K, DIM>,
    row: &Row<DIM>,
    hanging: Hanging,
    stars: &Stars,
    dart: Dart,
    edge: &Edge,
) -> (u32, u32)
    requires combinatorial { K.kind ≡ beta }
    requires can { CanHang K.kind links.now.rows hanging stars.now }
    requires key { Contains stars.now.keys dart }
    requires row { (t : ℕ) → slice_index row.now t ≡ links_of links.now.rows t dart }
    requires begin { edge.now.begin ≡ star_of stars.now dart }
    requires end { edge.now.end ≡ tip_of stars.now dart }
    ensures begin { result.0 ≡ star_link K.kind hanging (links_of links.now.rows) (star_of stars.now) (tip_of stars.now) dart 2 }
    ensures end { result.1 ≡ tip_link K.kind hanging (links_of links.now.rows) (star_of stars.now) (tip_of stars.now) dart 2 }
{
    // A map has links 0 to 2 at least.
    links.see_sound();
    match hanging {
        Hanging::Corner => (edge.end.number(), edge.begin.number()),
        Hanging::Face => (
            edge_numbers(stars, row.entry(1)).1,
            edge_numbers(stars, row.entry(0)).0,
        ),
    }
}

/// The numbers at a link from 3 on of the darts at which the new edge of a dart begins and ends, told by the row of the dart
/// before it; 0 where the link stays free. They are those of the new edges of neighbours: in a generalized map starts lead to
/// starts, and in a combinatorial one starts lead to ends.
fn high_links<K: Kind, const DIM: usize>(
    links: &Links<K, DIM>,
    row: &Row<DIM>,
    hanging: Hanging,
    stars: &Stars,
    dart: Dart,
    at: usize,
) -> (u32, u32)
    requires can { CanHang K.kind links.now.rows hanging stars.now }
    requires key { Contains stars.now.keys dart }
    requires row { (t : ℕ) → slice_index row.now t ≡ links_of links.now.rows t (before K.kind hanging (links_of links.now.rows) dart) }
    requires low { 3 ≤ at }
    requires high { at ≤ DIM }
    ensures begin { result.0 ≡ star_link K.kind hanging (links_of links.now.rows) (star_of stars.now) (tip_of stars.now) dart at }
    ensures end { result.1 ≡ tip_link K.kind hanging (links_of links.now.rows) (star_of stars.now) (tip_of stars.now) dart at }
{
    let (begin, end) = edge_numbers(stars, row.entry(at));
    if is_generalized::<K>() {
        (begin, end)
    } else {
        (end, begin)
    }
}

/// The dart whose link 1 leads to the start of the new edge of a dart with this row.
fn before<K: Kind, const DIM: usize>(
    links: &Links<K, DIM>,
    row: &Row<DIM>,
    hanging: Hanging,
    dart: Dart,
) -> Dart
    requires row { (t : ℕ) → slice_index row.now t ≡ links_of links.now.rows t dart }
    requires live { IsLive links.now.rows (before K.kind hanging (links_of links.now.rows) dart) }
    ensures { result ≡ before K.kind hanging (links_of links.now.rows) dart }
{
    // 0 is no dart, and a map has links 0 to 8 at most.
    links.see_sound();
    if is_generalized::<K>() {
        return dart;
    }
    match hanging {
        Hanging::Corner => Dart::new(row.entry(0)).unwrap(),
        Hanging::Face => dart,
    }
}

/// The number at link 1 of the dart before a dart with this row.
fn led_before<K: Kind, const DIM: usize>(
    links: &Links<K, DIM>,
    row: &Row<DIM>,
    hanging: Hanging,
    dart: Dart,
) -> u32
    requires row { (t : ℕ) → slice_index row.now t ≡ links_of links.now.rows t dart }
    requires live { IsLive links.now.rows (before K.kind hanging (links_of links.now.rows) dart) }
    ensures { result ≡ links_of links.now.rows 1 (before K.kind hanging (links_of links.now.rows) dart) }
{
    // A map has links 0 to 2 at least.
    links.see_sound();
    let before = before(links, row, hanging, dart);
    if before == dart {
        return row.entry(1);
    }
    links.live_row(before).entry(1)
}

/// The numbers of the darts at which the new edge of the dart of this number begins and ends; 0 and 0 for 0.
fn edge_numbers(stars: &Stars, number: u32) -> (u32, u32)
    requires pair { CanPair stars.now }
    requires key { number ≢ 0 → Contains stars.now.keys number }
    ensures begin { result.0 ≡ star_of stars.now number }
    ensures end { result.1 ≡ tip_of stars.now number }
{
    let Some(dart) = Dart::new(number) else {
        return (0, 0);
    };
    let begin = begin_of(stars, dart);
    (begin.number(), tip(stars, begin).number())
}

/// The dart at which the new edge of a dart begins. Darts that are numbered without gaps stand in their list as far from the
/// first as their numbers do, so that the place of the dart need not be searched.
fn begin_of(stars: &Stars, dart: Dart) -> Dart
    requires { Contains stars.now.keys dart }
    ensures { result ≡ star_of stars.now dart }
{
    let darts = stars.darts();
    let place = (dart.number() - darts[0].number()) as usize;
    if is_at(darts, place, dart) {
        return stars.star_at(place);
    }
    stars.star(dart)
}

/// Whether a dart stands at a place, which may lie behind all darts.
fn is_at(darts: &[Dart], place: usize, dart: Dart) -> bool
    ensures { IsTrue result → (place < length darts.now) × (slice_index darts.now place ≡ dart) }
{
    place < darts.len() && darts[place] == dart
}

/// The new edge of the dart at a place.
fn edge_at(stars: &Stars, place: usize) -> Edge
    requires pair { CanPair stars.now }
    requires place { place < length stars.now.keys }
    ensures begin { result.begin ≡ star_of stars.now (slice_index stars.now.keys place) }
    ensures end { result.end ≡ tip_of stars.now (slice_index stars.now.keys place) }
{
    let begin = stars.star_at(place);
    Edge {
        begin,
        end: tip(stars, begin),
    }
}

/// The dart at which the edge ends that begins at a dart: the ends are numbered on from the starts.
fn tip(stars: &Stars, begin: Dart) -> Dart
    requires { begin + length stars.now.keys < 2 ^ 32 }
    ensures { result ≡ begin + length stars.now.keys }
{
    Dart::new(begin.number() + stars.births()).unwrap()
}
