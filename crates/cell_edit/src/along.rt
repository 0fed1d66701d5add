ghost use Rattle.std.specs.Prelude.{◌≡◌, ℕ, ◌+◌, ◌≤◌, ◌↔◌, All, Contains, IfOk, OnOk, IsErrOf, IsTrue, map, take, length};
ghost use Rattle.std.specs.List.Sorted.{IsStrictlyIncreasing};
ghost use Rattle.map_defs.specs.Rows.{links_of};
ghost use Rattle.map_defs.specs.LinkWords.{one_link};
ghost use Rattle.map_defs.specs.Cells.{InOrbit};
ghost use Rattle.map_defs.specs.Pairs.{InPairs, IsGood};
ghost use Rattle.map_defs.specs.Insertion.{IsLinkedBy, IsCarrying, IsPairing};
ghost use Rattle.sewing.specs.Triples.{Lists, IsAscending};

use cell_walk::{orbits_of, reaches};
use link_rows::Links;
use map_kind::{Dart, Kind, LinkWord};
use sewing::{PairFault, Triple, pair};
use std::alloc::{AllocError, Global};

/// Whether some of these links lead, one after another, from one dart to another. It costs the darts that are not farther
/// than that, for each link, times a logarithm.
pub fn leads<K: Kind, const DIM: usize>(
    alloc: Global,
    links: &Links<K, DIM>,
    along: &[usize],
    one: Dart,
    other: Dart,
) -> Result<bool, AllocError>
    requires { All (λ j. j ≤ DIM) along.now }
    ensures { IfOk result (λ leads. IsTrue leads ↔ InOrbit (IsLinkedBy (links_of links.now.rows) (Contains along.now)) one other) }
{
    let words = one_link_words(alloc, along)?;
    reaches(alloc, links, &words, one, other)
}

/// The darts to which these links lead from some darts, those darts among them, ascending.
pub(crate) fn reached<K: Kind, const DIM: usize>(
    alloc: Global,
    links: &Links<K, DIM>,
    along: &[usize],
    darts: &[Dart],
) -> Result<Vec<Dart>, AllocError>
    requires { All (λ j. j ≤ DIM) along.now }
    ensures members { IfOk result (λ reached. (y : ℕ) → Contains reached.items y
        ↔ ((d : ℕ) × Contains darts.now d × InOrbit (IsLinkedBy (links_of links.now.rows) (Contains along.now)) d y)) }
    ensures ascending { IfOk result (λ reached. IsStrictlyIncreasing reached.items) }
{
    let words = one_link_words(alloc, along)?;
    orbits_of(alloc, links, &words, darts)
}

/// The darts that an insertion at a link carries from some darts: those darts, and all to which the links of `carrying_links`
/// lead from them, ascending.
pub fn carried_darts<K: Kind, const DIM: usize>(
    alloc: Global,
    links: &Links<K, DIM>,
    link: usize,
    darts: &[Dart],
) -> Result<Vec<Dart>, AllocError>
    ensures members { IfOk result (λ carried. (y : ℕ) → Contains carried.items y
        ↔ ((d : ℕ) × Contains darts.now d × InOrbit (IsLinkedBy (links_of links.now.rows) (IsCarrying K.kind link)) d y)) }
    ensures ascending { IfOk result (λ carried. IsStrictlyIncreasing carried.items) }
{
    let carrying = carrying_links::<K>(alloc, links.dimension(), link)?;
    reached(alloc, links, &carrying, darts)
}

/// The pairs of an insertion at a link that grow from some seeds, ascending. `Unpaired` comes exactly where they cannot be
/// joined, memory aside.
pub fn insertion_pairs<K: Kind, const DIM: usize>(
    alloc: Global,
    links: &Links<K, DIM>,
    link: usize,
    seeds: &[Triple],
) -> Result<Vec<Triple>, PairFault>
    requires { link ≤ DIM }
    ensures members { IfOk result (λ pairs. (x y t : ℕ) → Lists pairs.items x y t
        ↔ InPairs K.kind (links_of links.now.rows) (IsPairing link) (Lists seeds.now) x y t) }
    ensures ascending { IfOk result (λ pairs. IsAscending pairs.items) }
    ensures good { OnOk result (IsGood K.kind (links_of links.now.rows) (IsPairing link)
        (InPairs K.kind (links_of links.now.rows) (IsPairing link) (Lists seeds.now))) }
    ensures unpaired { IsErrOf result PairFault.Unpaired → IsGood K.kind (links_of links.now.rows) (IsPairing link)
        (InPairs K.kind (links_of links.now.rows) (IsPairing link) (Lists seeds.now)) → ⊥ }
{
    let (pairing, count) = pairing_links(links.dimension(), link);
    pair(alloc, links, seeds, &pairing[..count])
}

/// The links up to `dim` along which the new darts of an insertion at a link lie: the link, and those distant from it.
pub fn carrying_links<K: Kind>(
    alloc: Global,
    dim: usize,
    link: usize,
) -> Result<Vec<usize>, AllocError>
    requires { dim ≤ 8 }
    ensures { IfOk result (λ carrying. (j : ℕ) → Contains carrying.items j ↔ ((j ≤ dim) × IsCarrying K.kind link j)) }
{
    let mut carrying = Vec::new(alloc);
    for other in 0..dim + 1 {
        if other != link && !K::distant(link, other) {
            continue;
        }
        carrying.push(other)?;
    }
    Ok(carrying)
}

/// The links up to `dim` along which the pairs of an insertion at a link go, the link and those from the second above it: the
/// first of the list, and how many they are.
fn pairing_links(dim: usize, link: usize) -> ([usize; 9], usize)
    requires dim { dim ≤ 8 }
    requires link { link ≤ dim }
    ensures few { result.1 ≤ 9 }
    ensures long { length result.0 ≡ 9 }
    ensures pairing { (j : ℕ) → Contains (take result.1 result.0) j ↔ ((j ≤ dim) × IsPairing link j) }
{
    let mut pairing = [0; 9];
    let mut count = 0;
    for other in 0..dim + 1 {
        if other < link || other == link + 1 {
            continue;
        }
        pairing[count] = other;
        count += 1;
    }
    (pairing, count)
}

/// The words of these links, one link each.
fn one_link_words(alloc: Global, along: &[usize]) -> Result<Vec<LinkWord>, AllocError>
    ensures { IfOk result (λ words. words.items ≡ map one_link along.now) }
{
    along.iter().map(|link| LinkWord::one(*link)).collect(alloc)
}
