ghost use Rattle.std.specs.Prelude.{◌≡◌, ◌≢◌, ℕ, ◌+◌, ◌≤◌, ◌<◌, ◌↔◌, [], ◌∷◌, All, Contains, IsTrue, IfOk, OnOk, IsErrOf};
ghost use Rattle.map_defs.specs.Kind.{inverse};
ghost use Rattle.map_defs.specs.Rows.{links_of, IsSound};
ghost use Rattle.map_defs.specs.Pairs.{InPairs, IsGood};
ghost use Rattle.sewing.specs.Triples.{Lists, IsAscending};
ghost use Rattle.sewing.specs.PairLists.{triples_of};
ghost use Rattle.sewing.specs.PairSteps.{AreApart, LeadsBack, IsTwofold, IsLink, IsNewLink, OrInverse, IsListed, FailsListed, IsStepped, IsPairable};
ghost use Rattle.sewing.specs.declared.pairing.PairFault.TheVariants.{NoMemory};

use crate::book::Book;
use crate::near::near_pairs;
use crate::pairs::Pairs;
use crate::triple::Triple;
use link_rows::Links;
use map_kind::Kind;
use std::alloc::{AllocError, AllocFailed, Global};
use thiserror::Error;

/// Why darts are not paired.
#[derive(Clone, Copy, Debug, PartialEq, Eq, Error)]
pub enum PairFault {
    /// The pairs cannot be joined: a dart would have two partners at a link, or would be joined to itself by a link that
    /// is its own inverse, or two partners are not alike free at the links that the pairs go along.
    #[error("the darts cannot be paired")]
    Unpaired,
    /// There is no memory.
    #[error("out of memory")]
    NoMemory,
}

impl From<AllocError> for PairFault {
    ghost from_gives = { λ _ fault. fault ≡ NoMemory };

    fn from(_error: AllocError) -> PairFault {
        PairFault::NoMemory
    }
}

impl<T: Drop> From<AllocFailed<T>> for PairFault {
    ghost from_gives = { λ _ fault. fault ≡ NoMemory };

    fn from(_error: AllocFailed<T>) -> PairFault {
        PairFault::NoMemory
    }
}

/// The pairs that grow from some seeds along a set of links, ascending by `x`, then by `t`: the seeds, each triple
/// turned round, and, where `x` has a link of the set and `y` its inverse, the triple across that link. `Unpaired` comes
/// exactly where the pairs cannot be joined, memory aside; seeds in which a dart has two partners at a link are such.
///
/// It costs the number of pairs, for each link of the set, times a logarithm.
pub fn pair<K: Kind, const DIM: usize>(
    alloc: Global,
    links: &Links<K, DIM>,
    seeds: &[Triple],
    set: &[usize],
) -> Result<Vec<Triple>, PairFault>
    requires { All (λ j. j ≤ DIM) set.now }
    ensures members { IfOk result (λ pairs. (x y t : ℕ) → Lists pairs.items x y t
        ↔ InPairs K.kind (links_of links.now.rows) (Contains set.now) (Lists seeds.now) x y t) }
    ensures ascending { IfOk result (λ pairs. IsAscending pairs.items) }

    // It answers where the pairs can be joined, and says `Unpaired` where they cannot.
    ensures good { OnOk result (IsGood K.kind (links_of links.now.rows) (Contains set.now)
        (InPairs K.kind (links_of links.now.rows) (Contains set.now) (Lists seeds.now))) }
    ensures unpaired { IsErrOf result PairFault.Unpaired → IsGood K.kind (links_of links.now.rows) (Contains set.now)
        (InPairs K.kind (links_of links.now.rows) (Contains set.now) (Lists seeds.now)) → ⊥ }
{
    Ok(paired(alloc, links, seeds, set)?.into_ascending())
}

/// The pairs that grow from one seed along a set of links, in no order. `Unpaired` comes exactly where they cannot be joined,
/// memory aside. Along one link that is its own inverse they take no memory.
pub(crate) fn grown<K: Kind, const DIM: usize>(
    alloc: Global,
    links: &Links<K, DIM>,
    seed: Triple,
    set: &[usize],
) -> Result<Pairs, PairFault>
    requires set { All (λ j. j ≤ DIM) set.now }
    requires sound { IsSound K.kind DIM links.now.rows }
    ensures members { IfOk result (λ pairs. (x y t : ℕ) → Lists (triples_of pairs) x y t
        ↔ InPairs K.kind (links_of links.now.rows) (Contains set.now) (Lists (seed ∷ [])) x y t) }
    ensures apart { IfOk result (λ pairs. AreApart (triples_of pairs)) }
    ensures good { OnOk result (IsGood K.kind (links_of links.now.rows) (Contains set.now)
        (InPairs K.kind (links_of links.now.rows) (Contains set.now) (Lists (seed ∷ [])))) }
    ensures unpaired { IsErrOf result PairFault.Unpaired → IsGood K.kind (links_of links.now.rows) (Contains set.now)
        (InPairs K.kind (links_of links.now.rows) (Contains set.now) (Lists (seed ∷ []))) → ⊥ }
{
    if leads_back::<K>(set) {
        return near_pairs(links, seed, set);
    }
    let book = paired(alloc, links, &[seed], set)?;
    Ok(Pairs::Many(book.into_triples()))
}

/// Whether there is one link at most in a set, which is its own inverse.
fn leads_back<K: Kind>(set: &[usize]) -> bool
    ensures { IsTrue result → LeadsBack K.kind (Contains set.now) }
{
    match set {
        [] => true,
        [link] => K::inverse(*link) == *link,
        _ => false,
    }
}

/// A book of the pairs that grow from some seeds along a set of links. `Unpaired` comes exactly where they cannot be joined,
/// memory aside.
pub(crate) fn paired<K: Kind, const DIM: usize>(
    alloc: Global,
    links: &Links<K, DIM>,
    seeds: &[Triple],
    set: &[usize],
) -> Result<Book, PairFault>
    requires { All (λ j. j ≤ DIM) set.now }
    ensures members { IfOk result (λ book. (x y t : ℕ) → Lists book x y t
        ↔ InPairs K.kind (links_of links.now.rows) (Contains set.now) (Lists seeds.now) x y t) }
    ensures good { OnOk result (IsGood K.kind (links_of links.now.rows) (Contains set.now)
        (InPairs K.kind (links_of links.now.rows) (Contains set.now) (Lists seeds.now))) }
    ensures unpaired { IsErrOf result PairFault.Unpaired → IsGood K.kind (links_of links.now.rows) (Contains set.now)
        (InPairs K.kind (links_of links.now.rows) (Contains set.now) (Lists seeds.now)) → ⊥ }
{
    let mut book = listed::<K>(alloc, seeds)?;
    let mut next = 0;
    while next < book.len() {
        visit(links, set, book.at(next), &mut book)?;
        // The triple turned round stands behind it, and leads to the same triples.
        next += 2;
    }
    Ok(book)
}

/// A book of these triples, each with the triple turned round.
fn listed<K: Kind>(alloc: Global, triples: &[Triple]) -> Result<Book, PairFault>
    ensures listed { IfOk result (λ book. IsListed K.kind triples.now book) }
    ensures unpaired { IsErrOf result PairFault.Unpaired → FailsListed K.kind triples.now }
{
    let mut book = Book::new(alloc)?;
    for triple in triples {
        book.add::<K>(*triple)?;
    }
    Ok(book)
}

/// Finds what a triple leads to, and what the triple turned round leads to: the triples across the links of the set and
/// across their inverses.
fn visit<K: Kind, const DIM: usize>(
    links: &Links<K, DIM>,
    set: &[usize],
    triple: Triple,
    book: &mut Book,
) -> Result<(), PairFault>
    requires set { All (λ j. j ≤ DIM) set.now }
    requires found { Contains book.old triple }
    requires twofold { IsTwofold K.kind book.old }
    ensures stepped { OnOk result
        (IsStepped K.kind (links_of links.now.rows) (OrInverse K.kind (Contains set.now)) triple book.old book.new) }
    ensures unpaired { IsErrOf result PairFault.Unpaired
        → IsPairable K.kind (links_of links.now.rows) (Contains set.now) (Lists book.old) → ⊥ }
{
    for link in set {
        cross_both(links, set, *link, triple, book)?;
    }
    Ok(())
}

/// Finds the triples across a link of the set, and across its inverse where the set has not the inverse too.
fn cross_both<K: Kind, const DIM: usize>(
    links: &Links<K, DIM>,
    set: &[usize],
    link: usize,
    triple: Triple,
    book: &mut Book,
) -> Result<(), PairFault>
    requires link { link ≤ DIM }
    requires among { Contains set.now link }
    requires found { Contains book.old triple }
    requires twofold { IsTwofold K.kind book.old }
    ensures stepped { OnOk result
        (IsStepped K.kind (links_of links.now.rows) (IsNewLink K.kind (Contains set.now) link) triple book.old book.new) }
    ensures unpaired { IsErrOf result PairFault.Unpaired
        → IsPairable K.kind (links_of links.now.rows) (IsNewLink K.kind (Contains set.now) link) (Lists book.old) → ⊥ }
{
    cross(links, link, triple, book)?;
    let back = K::inverse(link);
    if back == link || set.contains(&back) {
        return Ok(());
    }
    cross(links, back, triple, book)
}

/// Finds the triple across a link, where both darts are linked.
fn cross<K: Kind, const DIM: usize>(
    links: &Links<K, DIM>,
    link: usize,
    triple: Triple,
    book: &mut Book,
) -> Result<(), PairFault>
    requires link { link ≤ DIM }
    requires found { Contains book.old triple }
    requires twofold { IsTwofold K.kind book.old }
    ensures stepped { OnOk result
        (IsStepped K.kind (links_of links.now.rows) (IsLink link) triple book.old book.new) }
    ensures unpaired { IsErrOf result PairFault.Unpaired
        → IsPairable K.kind (links_of links.now.rows) (IsLink link) (Lists book.old) → ⊥ }
    ensures low { 2 ≤ DIM }
{
    match (
        links.link(triple.x, link),
        links.link(triple.y, K::inverse(link)),
    ) {
        (Some(x), Some(y)) => book.add::<K>(Triple {
            x,
            y,
            t: K::inverse(triple.t),
        }),
        (None, None) => Ok(()),
        _ => Err(PairFault::Unpaired),
    }
}
