ghost use Rattle.std.specs.Prelude.{◌≡◌, ◌≢◌, ℕ, ◌+◌, ◌-◌, ◌≤◌, ◌<◌, ◌++◌, All, map, length, slice_index, Contains, IfOk, vec_len, vec_capacity};
ghost use Rattle.std.specs.List.Sorted.{IsStrictlyIncreasing};
ghost use Rattle.map_defs.specs.Kind.{inverse, IsDistant};
ghost use Rattle.map_defs.specs.Rows.{links_of, IsLive};
ghost use Rattle.map_defs.specs.Laws.{Laws};
ghost use Rattle.map_defs.specs.Insertion.{IsInsertable, IsInserted};
ghost use Rattle.sewing.specs.Triples.{Lists, IsAscending};
ghost use Rattle.cell_edit.specs.Stars.{star_of};
ghost use Rattle.cell_edit.specs.Inserting.{PlansInsertion};
ghost use Rattle.cell_edit.specs.Writing.{WritesEntries, Appends, IsCopy, IsDistantCopy, IsKeyEntry, IsCarriedEntry, AreReady, ArePairsOf};

use crate::room::room_for_insertion;
use crate::stars::Stars;
use link_rows::{BornRows, Change, Edit, Links, Row};
use map_kind::{Dart, Kind};
use sewing::Triple;
use std::alloc::{AllocError, Global};

/// The edit of an insertion at a link that is its own inverse, where its darts and its pairs meet the premises: a new dart beyond the link of each
/// of the darts, and the new darts joined by the pairs at the link before. The darts and the pairs are ascending.
///
/// It costs the number of its darts, for each link of the map, times a logarithm.
pub fn insertion_edit<K: Kind, const DIM: usize>(
    alloc: Global,
    links: &Links<K, DIM>,
    link: usize,
    darts: Vec<Dart>,
    pairs: &[Triple],
) -> Result<Edit, AllocError>
    requires link { link < DIM }
    requires darts { IsStrictlyIncreasing darts.items }
    requires live { All (IsLive links.now.rows) darts.items }
    requires pairs { IsAscending pairs.now }
    requires among { ArePairsOf darts.items pairs.now }
    requires insertable { IsInsertable K.kind link (Contains darts.items) (Lists pairs.now) (links_of links.now.rows) }
    requires laws { Laws K.kind (links_of links.now.rows) }
    ensures { IfOk result (λ edit. PlansInsertion K.kind DIM links.now.rows (Contains darts.items)
        (λ star N. IsInserted K.kind link (Contains darts.items) (Lists pairs.now) star (links_of links.now.rows) N) edit) }
{
    // A map has links 0 to 8 at most.
    links.see_sound();
    let stars = Stars::new(darts, links.made());
    let mut changes = carried_changes(alloc, links, link, &stars, pairs.len())?;
    push_pairs(&stars, pairs, &mut changes);
    Ok(Edit {
        births: stars.births(),
        deaths: Vec::new(alloc),
        changes,
        born: BornRows::none(alloc),
    })
}

/// The changes of an insertion at a link but for those of its pairs, for so many of which there is room behind.
fn carried_changes<K: Kind, const DIM: usize>(
    alloc: Global,
    links: &Links<K, DIM>,
    link: usize,
    stars: &Stars,
    pairs: usize,
) -> Result<Vec<Change>, AllocError>
    requires link { link < DIM }
    requires own { inverse K.kind link ≡ link }
    requires ready { AreReady K.kind links.now.rows link stars.now }
    ensures entries { IfOk result (λ changes. WritesEntries (links_of links.now.rows)
        (IsCarriedEntry K.kind (links_of links.now.rows) link (star_of stars.now) (DIM + 1) stars.now.keys) changes.items) }
    ensures room { IfOk result (λ changes. vec_len changes + pairs ≤ vec_capacity changes) }
{
    let darts = stars.darts();
    let mut changes = room_for_insertion(alloc, darts.len(), links.dimension(), pairs)?;
    for place in 0..darts.len() {
        push_dart(
            links,
            link,
            stars,
            darts[place],
            stars.star_at(place),
            &mut changes,
        );
    }
    Ok(changes)
}

/// Appends the changes of one dart and of `new`, its new dart: the link becomes the new dart, and the new dart gets its
/// links, but for those of the pairs. There is room for them.
fn push_dart<K: Kind, const DIM: usize>(
    links: &Links<K, DIM>,
    link: usize,
    stars: &Stars,
    dart: Dart,
    new: Dart,
    changes: &mut Vec<Change>,
)
    requires link { link < DIM }
    requires own { inverse K.kind link ≡ link }
    requires ready { AreReady K.kind links.now.rows link stars.now }
    requires key { Contains stars.now.keys dart }
    requires new { new ≡ star_of stars.now dart }
    requires above { stars.now.made < new }
    requires room { vec_len changes.old + (DIM + 2) ≤ vec_capacity changes.old }
    ensures capacity { vec_capacity changes.new ≡ vec_capacity changes.old }
    ensures few { vec_len changes.new ≤ vec_len changes.old + (DIM + 2) }
    ensures entries { Appends (links_of links.now.rows)
        (IsKeyEntry K.kind (links_of links.now.rows) link (star_of stars.now) (DIM + 1) dart) changes.old.items changes.new.items }
{
    // A map has links 0 to 8 at most.
    links.see_sound();
    let row = links.live_row(dart);
    let old = row.entry(link);
    changes.push_reserved(Change::new(dart, link, old, new.number()));
    push_distant::<K, DIM>(row, link, stars, new, 0, link, changes);
    changes.push_reserved(joining(new, link, dart));
    push_copy(stars, new, link + 1, old, changes);
    push_distant::<K, DIM>(
        row,
        link,
        stars,
        new,
        link + 2,
        links.dimension() + 1,
        changes,
    );
}

/// Appends the changes of those links of a new dart from `from` up to `to` that are distant from a link: they are copied
/// from the row of its dart. There is room for them.
fn push_distant<K: Kind, const DIM: usize>(
    row: &Row<DIM>,
    link: usize,
    stars: &Stars,
    new: Dart,
    from: usize,
    to: usize,
    changes: &mut Vec<Change>,
)
    requires low { 2 ≤ DIM }
    requires high { DIM ≤ 8 }
    requires from { from ≤ to }
    requires to { to ≤ DIM + 1 }
    requires carried { (t : ℕ) → IsDistant K.kind link t → slice_index row.now t ≢ 0 → Contains stars.now.keys (slice_index row.now t) }
    requires nothing { star_of stars.now 0 ≡ 0 }
    requires room { vec_len changes.old + (to - from) ≤ vec_capacity changes.old }
    ensures capacity { vec_capacity changes.new ≡ vec_capacity changes.old }
    ensures few { vec_len changes.new ≤ vec_len changes.old + (to - from) }
    ensures copies { (L : ℕ → ℕ → ℕ) → ((t : ℕ) → L t new ≡ 0)
        → Appends L (IsDistantCopy K.kind link row.now (star_of stars.now) from to new) changes.old.items changes.new.items }
{
    for at in from..to {
        if !K::distant(link, at) {
            continue;
        }
        push_copy(stars, new, at, row.entry(K::inverse(at)), changes);
    }
}

/// Appends the change by which a link of a new dart becomes the new dart of the dart of a number; none where that is 0.
/// There is room for it.
fn push_copy(stars: &Stars, new: Dart, at: usize, number: u32, changes: &mut Vec<Change>)
    requires key { number ≢ 0 → Contains stars.now.keys number }
    requires nothing { star_of stars.now 0 ≡ 0 }
    requires room { vec_len changes.old < vec_capacity changes.old }
    ensures capacity { vec_capacity changes.new ≡ vec_capacity changes.old }
    ensures few { vec_len changes.new ≤ vec_len changes.old + 1 }
    ensures copy { (L : ℕ → ℕ → ℕ) → L at new ≡ 0
        → Appends L (IsCopy (star_of stars.now) new at number) changes.old.items changes.new.items }
{
    let Some(other) = Dart::new(number) else {
        return;
    };
    changes.push_reserved(joining(new, at, stars.star(other)));
}

/// Appends the changes by which the new darts of pairs are joined. There is room for them.
#[inline(always)]
fn push_pairs(stars: &Stars, pairs: &[Triple], changes: &mut Vec<Change>)
    requires ascending { IsAscending pairs.now }
    requires among { ArePairsOf stars.now.keys pairs.now }
    requires room { vec_len changes.old + length pairs.now ≤ vec_capacity changes.old }
    ensures { changes.new.items ≡ changes.old.items
        ++ map (λ pair. record { dart = star_of stars.now pair.x; link = pair.t; old = 0; new = star_of stars.now pair.y }) pairs.now }
{
    let mut place = 0;
    for pair in pairs {
        place = stars.place_from(place, pair.x);
        changes.push_reserved(joining(stars.star_at(place), pair.t, stars.star(pair.y)));
    }
}

/// The change by which a link of a new dart becomes a dart.
fn joining(dart: Dart, link: usize, other: Dart) -> Change
    ensures { result ≡ record { dart = dart; link = link; old = 0; new = other } }
{
    Change::new(dart, link, 0, other.number())
}
