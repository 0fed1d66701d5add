ghost use Rattle.std.specs.Prelude.{◌≡◌, ◌≢◌, ℕ, ◌+◌, ◌≤◌, ◌<◌, ◌↔◌, ◌⊎◌, [], Contains, IsTrue, IfOk, IfErr, OnOk, IsErrOf, map, take, length};
ghost use Rattle.map_defs.specs.Kind.{inverse, IsDistant};
ghost use Rattle.map_defs.specs.Rows.{links_of, IsLive, IsSound};
ghost use Rattle.map_defs.specs.Laws.{Laws};
ghost use Rattle.map_defs.specs.Edits.{Fits, after_edit};
ghost use Rattle.map_defs.specs.Pairs.{IsGood};
ghost use Rattle.map_defs.specs.Sewing.{SewnPairs, IsSewable, IsSewn, IsUnsewn};
ghost use Rattle.sewing.specs.Triples.{Lists};
ghost use Rattle.sewing.specs.PairLists.{triples_of};
ghost use Rattle.sewing.specs.PairSteps.{AreApart};

use crate::pairing::{PairFault, grown};
use crate::pairs::Pairs;
use crate::triple::Triple;
use link_rows::{BornRows, Change, Edit, Links};
use map_kind::{Dart, Kind, Refusal, Refused};
use std::alloc::{AllocError, Global};

/// The edit that sews `one` to `other` at a link: that link of `one` becomes `other`, the inverse link of `other` becomes
/// `one`, and all darts that must move with them, along the links distant from the link, are joined in the same way.
///
/// `NotFree` comes exactly where one of the two ends is not free, and is looked for before any memory is taken.
/// `Unsewable` comes exactly where both are free and the pairs of darts cannot be joined, memory aside.
///
/// It costs the number of pairs times a logarithm.
pub fn sew_plan<K: Kind, const DIM: usize>(
    alloc: Global,
    links: &Links<K, DIM>,
    link: usize,
    one: Dart,
    other: Dart,
) -> Result<Edit, Refused>
    requires link { link ≤ DIM }
    requires one { IsLive links.now.rows one }
    requires other { IsLive links.now.rows other }
    requires laws { Laws K.kind (links_of links.now.rows) }

    // It answers where the darts can be sewn, with an edit that fits, makes them so, and keeps the laws.
    ensures sewable { OnOk result (IsSewable K.kind (links_of links.now.rows) link one other) }
    ensures births { IfOk result (λ edit. edit.births ≡ 0) }
    ensures deaths { IfOk result (λ edit. edit.deaths ≡ []) }
    ensures fits { IfOk result (λ edit. Fits K.kind DIM links.now.rows edit) }
    ensures sewn { IfOk result (λ edit. IsSewn K.kind link one other (links_of links.now.rows)
        (links_of (after_edit DIM edit links.now.rows))) }
    ensures laws { IfOk result (λ edit. Laws K.kind (links_of (after_edit DIM edit links.now.rows))) }

    // It is refused where they cannot be sewn, or for want of memory.
    ensures not_free { IsErrOf result (Refused.Line Refusal.NotFree)
        ↔ ((links_of links.now.rows link one ≢ 0) ⊎ (links_of links.now.rows (inverse K.kind link) other ≢ 0)) }
    ensures unsewable { IsErrOf result (Refused.Line Refusal.Unsewable)
        → (links_of links.now.rows link one ≡ 0) × (links_of links.now.rows (inverse K.kind link) other ≡ 0)
        × (IsGood K.kind (links_of links.now.rows) (IsDistant K.kind link)
        (SewnPairs K.kind (links_of links.now.rows) link one other) → ⊥) }
    ensures refusals { IfErr result (λ refused. (refused ≡ Refused.NoMemory)
        ⊎ ((refused ≡ Refused.Line Refusal.NotFree) ⊎ (refused ≡ Refused.Line Refusal.Unsewable))) }
{
    if !are_free(links, link, one, other) {
        return Err(Refused::Line(Refusal::NotFree));
    }
    match sewn_pairs(alloc, links, link, one, other) {
        Ok(pairs) => Ok(Edit {
            births: 0,
            deaths: Vec::new(alloc),
            changes: joining(alloc, pairs.triples())?,
            born: BornRows::none(alloc),
        }),
        Err(PairFault::Unpaired) => Err(Refused::Line(Refusal::Unsewable)),
        Err(PairFault::NoMemory) => Err(Refused::NoMemory),
    }
}

/// The edit that frees a link of a dart, with all links of darts that were sewn together with it, both ends of each.
/// `AlreadyFree` comes exactly where the link is free, and is looked for before any memory is taken.
///
/// It costs the number of links that are freed times a logarithm.
pub fn unsew_plan<K: Kind, const DIM: usize>(
    alloc: Global,
    links: &Links<K, DIM>,
    link: usize,
    dart: Dart,
) -> Result<Edit, Refused>
    requires link { link ≤ DIM }
    requires laws { Laws K.kind (links_of links.now.rows) }

    // It answers with an edit that fits, frees the links, and keeps the laws.
    ensures births { IfOk result (λ edit. edit.births ≡ 0) }
    ensures deaths { IfOk result (λ edit. edit.deaths ≡ []) }
    ensures fits { IfOk result (λ edit. Fits K.kind DIM links.now.rows edit) }
    ensures unsewn { IfOk result (λ edit. IsUnsewn K.kind link dart (links_of links.now.rows)
        (links_of (after_edit DIM edit links.now.rows))) }
    ensures laws { IfOk result (λ edit. Laws K.kind (links_of (after_edit DIM edit links.now.rows))) }

    // It is refused where the link is free, or for want of memory.
    ensures already_free { IsErrOf result (Refused.Line Refusal.AlreadyFree)
        ↔ (links_of links.now.rows link dart ≡ 0) }
    ensures refusals { IfErr result (λ refused. (refused ≡ Refused.NoMemory)
        ⊎ (refused ≡ Refused.Line Refusal.AlreadyFree)) }
{
    match links.link(dart, link) {
        Some(other) => match sewn_pairs(alloc, links, link, dart, other) {
            Ok(pairs) => Ok(Edit {
                births: 0,
                deaths: Vec::new(alloc),
                changes: parting(alloc, pairs.triples())?,
                born: BornRows::none(alloc),
            }),
            // Darts that are joined are paired.
            Err(PairFault::Unpaired) => unreachable!(),
            Err(PairFault::NoMemory) => Err(Refused::NoMemory),
        },
        None => Err(Refused::Line(Refusal::AlreadyFree)),
    }
}

/// Whether `one` can be sewn to `other` at a link: `sew_plan` refuses exactly where not, memory aside.
///
/// It costs the number of pairs times a logarithm.
pub fn sewable<K: Kind, const DIM: usize>(
    alloc: Global,
    links: &Links<K, DIM>,
    link: usize,
    one: Dart,
    other: Dart,
) -> Result<bool, AllocError>
    requires { link ≤ DIM }
    ensures { IfOk result (λ sewable. IsTrue sewable ↔ IsSewable K.kind (links_of links.now.rows) link one other) }
{
    if !are_free(links, link, one, other) {
        return Ok(false);
    }
    match sewn_pairs(alloc, links, link, one, other) {
        Ok(_) => Ok(true),
        Err(PairFault::Unpaired) => Ok(false),
        Err(PairFault::NoMemory) => Err(AllocError),
    }
}

/// Whether a link of `one` and the inverse link of `other` are free.
fn are_free<K: Kind, const DIM: usize>(
    links: &Links<K, DIM>,
    link: usize,
    one: Dart,
    other: Dart,
) -> bool
    requires { link ≤ DIM }
    ensures { IsTrue result
        ↔ ((links_of links.now.rows link one ≡ 0) × (links_of links.now.rows (inverse K.kind link) other ≡ 0)) }
{
    links.link(one, link).is_none() && links.link(other, K::inverse(link)).is_none()
}

/// The pairs that are joined where `one` is sewn to `other` at a link, or parted where they are joined there, in no order.
/// `Unpaired` comes exactly where they cannot be joined.
fn sewn_pairs<K: Kind, const DIM: usize>(
    alloc: Global,
    links: &Links<K, DIM>,
    link: usize,
    one: Dart,
    other: Dart,
) -> Result<Pairs, PairFault>
    requires { link ≤ DIM }
    ensures members { IfOk result (λ pairs. (x y t : ℕ) → Lists (triples_of pairs) x y t
        ↔ SewnPairs K.kind (links_of links.now.rows) link one other x y t) }
    ensures apart { IfOk result (λ pairs. AreApart (triples_of pairs)) }
    ensures good { OnOk result (IsGood K.kind (links_of links.now.rows) (IsDistant K.kind link)
        (SewnPairs K.kind (links_of links.now.rows) link one other)) }
    ensures unpaired { IsErrOf result PairFault.Unpaired → IsGood K.kind (links_of links.now.rows) (IsDistant K.kind link)
        (SewnPairs K.kind (links_of links.now.rows) link one other) → ⊥ }
    ensures low { 2 ≤ DIM }
    ensures sound { IsSound K.kind DIM links.now.rows }
{
    let (distant, count) = distant_links::<K>(links.dimension(), link);
    let seed = Triple {
        x: one,
        y: other,
        t: link,
    };
    grown(alloc, links, seed, &distant[..count])
}

/// The links from 0 to `dim` that are distant from a link: the first of the list, and how many they are.
fn distant_links<K: Kind>(dim: usize, link: usize) -> ([usize; 9], usize)
    requires { dim ≤ 8 }
    ensures few { result.1 ≤ 9 }
    ensures long { length result.0 ≡ 9 }
    ensures distant { (j : ℕ) → Contains (take result.1 result.0) j ↔ ((j ≤ dim) × IsDistant K.kind link j) }
{
    let mut distant = [0; 9];
    let mut count = 0;
    for other in 0..dim + 1 {
        if !K::distant(link, other) {
            continue;
        }
        distant[count] = other;
        count += 1;
    }
    (distant, count)
}

/// The changes by which pairs are joined that are free.
fn joining(alloc: Global, pairs: &[Triple]) -> Result<Vec<Change>, AllocError>
    ensures { IfOk result (λ changes. changes.items
        ≡ map (λ pair. record { dart = pair.x; link = pair.t; old = 0; new = pair.y }) pairs.now) }
{
    let mut changes = Vec::with_capacity(alloc, pairs.len())?;
    for pair in pairs {
        changes.push_reserved(pair.joining());
    }
    Ok(changes)
}

/// The changes by which pairs are parted that are joined.
fn parting(alloc: Global, pairs: &[Triple]) -> Result<Vec<Change>, AllocError>
    ensures { IfOk result (λ changes. changes.items
        ≡ map (λ pair. record { dart = pair.x; link = pair.t; old = pair.y; new = 0 }) pairs.now) }
{
    let mut changes = Vec::with_capacity(alloc, pairs.len())?;
    for pair in pairs {
        changes.push_reserved(pair.parting());
    }
    Ok(changes)
}
