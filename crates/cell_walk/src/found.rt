ghost use Rattle.std.specs.Prelude.{◌≡◌, ◌≢◌, ℕ, ◌≤◌, ◌<◌, ◌^◌, ◌↔◌, [], ◌∷◌, ◌++◌, length, take, drop, slice_index, Contains, IsTrue, IfOk, IfSome, IfNone, OnOk};
ghost use Rattle.std.specs.Ordering.{nat_cmp};
ghost use Rattle.std.specs.List.Sorted.{IsPermutation, IsSorted, IsStrictlyIncreasing};

use crate::seen::{Few, Marks, Seen};
use map_kind::Dart;
use std::alloc::{AllocError, Global};
use std::marker::Model;

/// The darts that a walk has found, each once, in the order in which they were found.
#[derive(Drop)]
pub(crate) struct Found<S: Seen> {
    darts: Vec<Dart>,
    seen: S,
}

impl<S: Seen> Model for Found<S> {
    ghost use Rattle.std.specs.Prelude.{ℕ, List};
    ghost use Rattle.cell_walk.specs.Visits.{ListsOnce};

    ghost Value = { List ℕ };

    ghost view = { λ found. found.darts.items };

    ghost invariant = { λ found. ListsOnce (S.tells found.seen) found.darts.items };
}

impl Found<Few> {
    /// Nothing found yet.
    pub(crate) fn new(alloc: Global) -> Self
        ensures { result ≡ [] }
    {
        Found {
            darts: Vec::new(alloc),
            seen: Few::new(alloc),
        }
    }
}

impl<S: Seen> Found<S> {
    /// How many darts were found.
    #[inline(always)]
    pub(crate) fn len(&self) -> usize
        ensures { result ≡ length self.now }
    {
        self.darts.len()
    }

    /// The dart that was found after so many others.
    #[inline(always)]
    pub(crate) fn at(&self, place: usize) -> Dart
        requires { place < length self.now }
        ensures { result ≡ slice_index self.now place }
    {
        self.darts[place]
    }

    /// Whether a dart was found.
    #[inline(always)]
    pub(crate) fn contains(&self, dart: Dart) -> bool
        ensures { IsTrue result ↔ Contains self.now dart }
    {
        self.seen.contains(&self.darts, dart)
    }

    /// The dart of a number, if it is the number of a dart that was not found.
    #[inline(always)]
    pub(crate) fn unmet(&self, number: u32) -> Option<Dart>
        ensures some { IfSome result (λ dart. (number ≡ dart) × (dart ≢ 0) × (Contains self.now dart → ⊥)) }
        ensures none { IfNone result (number ≢ 0 → Contains self.now number) }
    {
        let dart = Dart::new(number)?;
        if self.contains(dart) {
            return None;
        }
        Some(dart)
    }

    /// Adds a dart that was not found before. There are never more than a vector can hold.
    #[inline(always)]
    pub(crate) fn put(&mut self, dart: Dart) -> Result<(), AllocError>
        requires { Contains self.old dart → ⊥ }
        ensures added { OnOk result (self.new ≡ self.old ++ dart ∷ []) }
        ensures few { OnOk result (length self.new < 2 ^ 64) }
    {
        self.seen.put(&mut self.darts, dart)
    }

    /// The darts that were found, ascending.
    pub(crate) fn into_ascending(self) -> Vec<Dart>
        ensures members { (d : ℕ) → Contains result.items d ↔ Contains self d }
        ensures ascending { IsStrictlyIncreasing result.items }
    {
        let Found { mut darts, seen } = self;
        drop(seen);
        darts.sort_unstable();
        darts
    }
}

impl Found<Marks> {
    /// Nothing found yet in a map whose darts are numbered up to `made`.
    pub(crate) fn in_map(alloc: Global, made: u32) -> Result<Self, AllocError>
        ensures { IfOk result (λ found. found ≡ []) }
    {
        Ok(Found {
            darts: Vec::with_capacity(alloc, made as usize)?,
            seen: Marks::new(alloc, made)?,
        })
    }

    /// Brings the darts that were found since so many others were into ascending order.
    pub(crate) fn sort_since(&mut self, place: usize)
        requires { place ≤ length self.old }
        ensures before { take place self.new ≡ take place self.old }
        ensures members { (d : ℕ)
            → Contains (drop place self.new) d ↔ (Contains self.old d × (Contains (take place self.old) d → ⊥)) }
        ensures ascending { IsStrictlyIncreasing (drop place self.new) }
    {
        sort_behind(&mut self.darts, place);
    }

    /// The darts that were found, in their order.
    pub(crate) fn into_darts(self) -> Vec<Dart>
        ensures { result.items ≡ self }
    {
        let Found { darts, seen } = self;
        drop(seen);
        darts
    }
}

/// Sorts the darts from a place on.
fn sort_behind(darts: &mut Vec<Dart>, place: usize)
    requires { place ≤ length darts.old.items }
    ensures before { take place darts.new.items ≡ take place darts.old.items }
    ensures same { IsPermutation (drop place darts.old.items) (drop place darts.new.items) }
    ensures sorted { IsSorted nat_cmp (drop place darts.new.items) }
{
    darts[place..].sort_unstable();
}
