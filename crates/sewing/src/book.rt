ghost use Rattle.std.specs.Prelude.{◌≡◌, ℕ, ◌<◌, ◌↔◌, [], ◌∷◌, ◌++◌, length, take, position, slice_get, Some, IfOk, OnOk, IsErrOf};
ghost use Rattle.sewing.specs.Triples.{Lists, IsAscending};
ghost use Rattle.sewing.specs.PairSteps.{IsPairAdded, FailsToPair, AreApart, is_of};

use crate::pairing::PairFault;
use crate::triple::Triple;
use map_kind::{Dart, Kind};
use std::alloc::{AllocError, Global};
use std::collections::BTreeMap;
use std::marker::Model;

/// How many triples are looked through before the map is asked.
const FEW: usize = 16;

/// The triples that a pairing has found, each once, in the order in which they were found. At a link each dart has one
/// partner at most.
///
/// Most pairings find few triples, and these are quickly looked through. A map tells the partners only of the triples
/// beyond the first few.
#[derive(Drop)]
pub(crate) struct Book {
    triples: Vec<Triple>,
    // The partner of a dart at a link, where the triple is not one of the first few.
    more: BTreeMap<(Dart, usize), Dart>,
}

impl Model for Book {
    ghost use Rattle.std.specs.Prelude.{ℕ, List};
    ghost use Rattle.std.specs.Ordering.{nat_cmp, ordering_then};
    ghost use Rattle.std.specs.BTreeMap as tree;
    ghost use Rattle.sewing.specs.Triples.{Triple};
    ghost use Rattle.sewing.specs.PairSteps.{IsKept};

    ghost Value = { List Triple };

    ghost view = { λ book. book.triples.items };

    ghost invariant = { λ book. IsKept
        (tree.get (λ (p q : ℕ × ℕ). ordering_then (nat_cmp p.0 q.0) (nat_cmp p.1 q.1)) book.more) book.triples.items };
}

impl Book {
    /// Nothing found yet. There is room for the first few triples.
    pub(crate) fn new(alloc: Global) -> Result<Self, AllocError>
        ensures { IfOk result (λ book. book ≡ []) }
    {
        Ok(Book {
            triples: Vec::with_capacity(alloc, FEW)?,
            more: BTreeMap::new(alloc),
        })
    }

    /// How many triples were found.
    pub(crate) fn len(&self) -> usize
        ensures length { result ≡ length self.now }
        ensures one { (x y z t : ℕ) → Lists self.now x y t → Lists self.now x z t → y ≡ z }
    {
        self.triples.len()
    }

    /// The triple that was found after so many others.
    pub(crate) fn at(&self, place: usize) -> Triple
        requires { place < length self.now }
        ensures { slice_get self.now place ≡ Some result }
    {
        self.triples[place]
    }

    /// Adds a triple and behind it the triple turned round, unless it was found before. `Unpaired` comes only where its
    /// dart `x` has another partner at link `t`, where it joins a dart to itself by a link that is its own inverse, or
    /// where the triple turned round was found without it or has another partner.
    pub(crate) fn add<K: Kind>(&mut self, triple: Triple) -> Result<(), PairFault>
        ensures added { OnOk result (IsPairAdded K.kind self.old self.new triple) }
        ensures unpaired { IsErrOf result PairFault.Unpaired → FailsToPair K.kind self.old triple.x triple.y triple.t }
    {
        if let Some(partner) = self.partner(triple.x, triple.t) {
            if partner == triple.y {
                return Ok(());
            }
            return Err(PairFault::Unpaired);
        }
        self.put_both::<K>(triple)
    }

    /// The triples that were found, in the order in which they were found. It takes no memory.
    pub(crate) fn into_triples(self) -> Vec<Triple>
        ensures triples { result.items ≡ self }
        ensures apart { AreApart self }
    {
        let Book { triples, more } = self;
        drop(more);
        triples
    }

    /// The triples that were found, ascending by `x`, then by `t`. It takes no memory.
    pub(crate) fn into_ascending(self) -> Vec<Triple>
        ensures members { (x y t : ℕ) → Lists result.items x y t ↔ Lists self x y t }
        ensures ascending { IsAscending result.items }
    {
        let Book { mut triples, more } = self;
        drop(more);
        triples.sort_unstable_by_key(|triple| (triple.x, triple.t));
        triples
    }

    /// Adds a triple whose dart `x` has no partner yet at link `t`, and the triple turned round.
    fn put_both<K: Kind>(&mut self, triple: Triple) -> Result<(), PairFault>
        requires { (y : ℕ) → Lists self.old triple.x y triple.t → ⊥ }
        ensures added { OnOk result (IsPairAdded K.kind self.old self.new triple) }
        ensures unpaired { IsErrOf result PairFault.Unpaired → FailsToPair K.kind self.old triple.x triple.y triple.t }
    {
        if triple.is_loop::<K>() {
            return Err(PairFault::Unpaired);
        }
        let turned = triple.turned::<K>();
        if self.partner(turned.x, turned.t).is_some() {
            return Err(PairFault::Unpaired);
        }
        self.put_two(triple, turned)?;
        Ok(())
    }

    /// Adds two triples whose darts have no partners yet at their links, and which are not of one dart and link.
    fn put_two(&mut self, one: Triple, other: Triple) -> Result<(), AllocError>
        requires one { (y : ℕ) → Lists self.old one.x y one.t → ⊥ }
        requires other { (y : ℕ) → Lists (self.old ++ one ∷ []) other.x y other.t → ⊥ }
        ensures { OnOk result (self.new ≡ self.old ++ one ∷ other ∷ []) }
    {
        self.triples.reserve(2)?;
        if self.triples.len() + 1 < FEW {
            self.triples.push_reserved(one);
            self.triples.push_reserved(other);
            return Ok(());
        }
        self.put(one)?;
        self.put(other)?;
        Ok(())
    }

    /// Adds a triple whose dart `x` has no partner yet at link `t`. All memory is taken before the triple is added, so
    /// that nothing is half done.
    fn put(&mut self, triple: Triple) -> Result<(), AllocError>
        requires { (y : ℕ) → Lists self.old triple.x y triple.t → ⊥ }
        ensures { OnOk result (self.new ≡ self.old ++ triple ∷ []) }
    {
        self.triples.reserve(1)?;
        if self.triples.len() < FEW {
            self.triples.push_reserved(triple);
            return Ok(());
        }
        self.more.insert((triple.x, triple.t), triple.y)?;
        self.triples.push_reserved(triple);
        Ok(())
    }

    /// The partner of a dart at a link, if it has one.
    fn partner(&self, x: Dart, t: usize) -> Option<Dart>
        ensures { (y : ℕ) → (result ≡ Some y) ↔ Lists self.now x y t }
    {
        match self.place(x, t) {
            Some(place) => Some(self.triples[place].y),
            None => self.more.get(&(x, t)).copied(),
        }
    }

    /// The place of the triple of a dart at a link, if it is one of the first few.
    fn place(&self, x: Dart, t: usize) -> Option<usize>
        ensures { result ≡ position (is_of x t) (take 16 self.now) }
    {
        self.first_few()
            .iter()
            .position(|triple| triple.x == x && triple.t == t)
    }

    /// The first few triples, or all where there are no more.
    fn first_few(&self) -> &[Triple]
        ensures { result.now ≡ take 16 self.now }
    {
        if self.triples.len() <= FEW {
            return &self.triples;
        }
        &self.triples[..FEW]
    }
}
