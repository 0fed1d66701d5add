ghost use Rattle.std.specs.Prelude.{◌≡◌, ◌<◌, ◌≤◌, length, All, IfOk, unwrap_or};
ghost use Rattle.std.specs.List.Sorted.{IsStrictlyIncreasing};
ghost use Rattle.half_defs.specs.Halves.{origin};
ghost use Rattle.orient_half.specs.Ranks.{IsRank};

use map_kind::Dart;
use std::alloc::{AllocError, Global};
use std::marker::Model;

/// Darts of a map, ascending, and the rank of each: its place among them, counted from 1. It is seen as the list of these
/// darts.
#[derive(Drop)]
pub(crate) struct Ranks {
    darts: Vec<Dart>,
    // At the place of each dart's number its rank, and 0 at all other places.
    table: Vec<u32>,
}

impl Model for Ranks {
    ghost use Rattle.std.specs.Prelude.{ℕ, List, ◌<◌, ◌^◌, length, slice_index};
    ghost use Rattle.orient_half.specs.Ranks.{IsRank};

    ghost Value = { List ℕ };

    ghost view = { λ ranks. ranks.darts.items };

    ghost invariant = { λ ranks. (length ranks.darts.items < 2 ^ 32) × ((d : ℕ) → IsRank ranks.darts.items d (slice_index ranks.table.items d)) };
}

impl Ranks {
    /// The ranks of these darts, among the darts up to `made`.
    pub(crate) fn new(alloc: Global, darts: Vec<Dart>, made: u32) -> Result<Ranks, AllocError>
        requires ascending { IsStrictlyIncreasing darts.items }
        requires within { All (λ d. (1 ≤ d) × (d ≤ made)) darts.items }
        ensures { IfOk result (λ ranks. ranks ≡ darts.items) }
    {
        let mut table = vec![in alloc; 0u32; made as usize + 1]?;
        for (place, dart) in darts.iter().enumerate() {
            table[dart.number() as usize] = place as u32 + 1;
        }
        Ok(Ranks { darts, table })
    }

    /// How many darts there are: the greatest rank, or 0.
    pub(crate) fn len(&self) -> u32
        ensures { result ≡ length self.now }
    {
        self.darts.len() as u32
    }

    /// The dart of a rank.
    pub(crate) fn dart(&self, rank: u32) -> Dart
        requires low { 1 ≤ rank }
        requires high { rank ≤ length self.now }
        ensures { result ≡ origin self.now rank }
    {
        self.darts[rank as usize - 1]
    }

    /// The rank of a dart; 0 where there is no dart, or it is none of these.
    pub(crate) fn rank(&self, dart: Option<Dart>) -> u32
        ensures { IsRank self.now (unwrap_or dart 0) result }
    {
        match dart {
            Some(dart) => self.rank_at(dart.number() as usize),
            None => self.rank_at(0),
        }
    }

    fn rank_at(&self, place: usize) -> u32
        ensures { IsRank self.now place result }
    {
        if place < self.table.len() {
            self.table[place]
        } else {
            0
        }
    }

    /// The darts themselves, ascending.
    pub(crate) fn into_darts(self) -> Vec<Dart>
        ensures { result.items ≡ self }
    {
        self.darts
    }
}
