//! Pairs that grow along one link at most, which is its own inverse: the seed and the triple across, which leads back, each
//! with the triple turned round. They take no memory.
ghost use Rattle.std.specs.Prelude.{◌≡◌, ◌≢◌, ℕ, ◌≤◌, ◌↔◌, [], ◌∷◌, All, Contains, Some, IfOk, OnOk, IsErrOf};
ghost use Rattle.map_defs.specs.Kind.{inverse};
ghost use Rattle.map_defs.specs.Rows.{links_of, IsSound};
ghost use Rattle.map_defs.specs.Pairs.{InPairs, IsGood};
ghost use Rattle.sewing.specs.Triples.{Lists};
ghost use Rattle.sewing.specs.PairLists.{triples_of};
ghost use Rattle.sewing.specs.PairSteps.{AreApart, LeadsBack, turn, IsLink, IsPairAdded, FailsToPair, IsStepped, IsPairable};

use crate::pairing::PairFault;
use crate::pairs::Pairs;
use crate::triple::Triple;
use link_rows::Links;
use map_kind::{Dart, Kind};

/// The pairs that grow from a seed along a set of one link at most. `Unpaired` comes exactly where they cannot be joined.
pub(crate) fn near_pairs<K: Kind, const DIM: usize>(
    links: &Links<K, DIM>,
    seed: Triple,
    set: &[usize],
) -> Result<Pairs, PairFault>
    requires set { All (λ j. j ≤ DIM) set.now }
    requires back { LeadsBack K.kind (Contains set.now) }
    requires sound { IsSound K.kind DIM links.now.rows }
    ensures members { IfOk result (λ pairs. (x y t : ℕ) → Lists (triples_of pairs) x y t
        ↔ InPairs K.kind (links_of links.now.rows) (Contains set.now) (Lists (seed ∷ [])) x y t) }
    ensures apart { IfOk result (λ pairs. AreApart (triples_of pairs)) }
    ensures good { OnOk result (IsGood K.kind (links_of links.now.rows) (Contains set.now)
        (InPairs K.kind (links_of links.now.rows) (Contains set.now) (Lists (seed ∷ [])))) }
    ensures unpaired { IsErrOf result PairFault.Unpaired → IsGood K.kind (links_of links.now.rows) (Contains set.now)
        (InPairs K.kind (links_of links.now.rows) (Contains set.now) (Lists (seed ∷ []))) → ⊥ }
{
    if seed.is_loop::<K>() {
        return Err(PairFault::Unpaired);
    }
    match set.first() {
        Some(link) => pairs_across(links, *link, seed),
        None => Ok(Pairs::Two([seed, seed.turned::<K>()])),
    }
}

/// A seed with the triple across a link, where both darts are linked.
fn pairs_across<K: Kind, const DIM: usize>(
    links: &Links<K, DIM>,
    link: usize,
    seed: Triple,
) -> Result<Pairs, PairFault>
    requires link { link ≤ DIM }
    requires moves { inverse K.kind seed.t ≡ seed.t → seed.x ≢ seed.y }
    ensures stepped { IfOk result (λ pairs. IsStepped K.kind (links_of links.now.rows) (IsLink link) seed
        (seed ∷ turn K.kind seed ∷ []) (triples_of pairs)) }
    ensures apart { IfOk result (λ pairs. AreApart (triples_of pairs)) }
    ensures unpaired { IsErrOf result PairFault.Unpaired
        → IsPairable K.kind (links_of links.now.rows) (IsLink link) (Lists (seed ∷ turn K.kind seed ∷ [])) → ⊥ }
{
    match (
        links.link(seed.x, link),
        links.link(seed.y, K::inverse(link)),
    ) {
        (Some(x), Some(y)) => pairs_beside::<K>(
            seed,
            Triple {
                x,
                y,
                t: K::inverse(seed.t),
            },
        ),
        (None, None) => Ok(Pairs::Two([seed, seed.turned::<K>()])),
        _ => Err(PairFault::Unpaired),
    }
}

/// A seed with another triple, unless that is the seed or the seed turned round. `Unpaired` comes only where the two cannot
/// both be.
fn pairs_beside<K: Kind>(seed: Triple, other: Triple) -> Result<Pairs, PairFault>
    requires { inverse K.kind seed.t ≡ seed.t → seed.x ≢ seed.y }
    ensures added { IfOk result (λ pairs. IsPairAdded K.kind (seed ∷ turn K.kind seed ∷ []) (triples_of pairs) other) }
    ensures apart { IfOk result (λ pairs. AreApart (triples_of pairs)) }
    ensures unpaired { IsErrOf result PairFault.Unpaired
        → FailsToPair K.kind (seed ∷ turn K.kind seed ∷ []) other.x other.y other.t }
{
    if let Some(partner) = partner::<K>(seed, other.x, other.t) {
        if partner == other.y {
            return Ok(Pairs::Two([seed, seed.turned::<K>()]));
        }
        return Err(PairFault::Unpaired);
    }
    if other.is_loop::<K>() {
        return Err(PairFault::Unpaired);
    }
    let turned = other.turned::<K>();
    if partner::<K>(seed, turned.x, turned.t).is_some() {
        return Err(PairFault::Unpaired);
    }
    Ok(Pairs::Four([seed, seed.turned::<K>(), other, turned]))
}

/// The partner that a seed or the seed turned round gives a dart at a link, if one of them does.
fn partner<K: Kind>(seed: Triple, x: Dart, t: usize) -> Option<Dart>
    requires { inverse K.kind seed.t ≡ seed.t → seed.x ≢ seed.y }
    ensures { (y : ℕ) → (result ≡ Some y) ↔ Lists (seed ∷ turn K.kind seed ∷ []) x y t }
{
    if seed.x == x && seed.t == t {
        return Some(seed.y);
    }
    let turned = seed.turned::<K>();
    if turned.x == x && turned.t == t {
        return Some(turned.y);
    }
    None
}
