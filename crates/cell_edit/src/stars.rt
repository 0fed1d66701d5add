ghost use Rattle.std.specs.Prelude.{◌≡◌, ◌≢◌, ℕ, ◌+◌, ◌^◌, ◌≤◌, ◌<◌, All, Contains, length, slice_index};
ghost use Rattle.std.specs.List.Sorted.{IsStrictlyIncreasing};
ghost use Rattle.map_defs.specs.Rows.{made_max};
ghost use Rattle.cell_edit.specs.Stars.{star_of};

use crate::places::place_of;
use map_kind::Dart;
use std::marker::Model;

/// The darts of an insertion, ascending, each of which gets a new dart: the new darts are numbered on from those that
/// were made, in the order of the darts.
#[derive(Drop)]
pub struct Stars {
    darts: Vec<Dart>,
    made: u32,
}

impl Model for Stars {
    ghost use Rattle.std.specs.Prelude.{◌≤◌, length};
    ghost use Rattle.std.specs.List.Sorted.{IsStrictlyIncreasing};
    ghost use Rattle.map_defs.specs.Rows.{made_max};
    ghost use Rattle.cell_edit.specs.Stars as numbers;

    ghost Value = { numbers.Stars };

    ghost view = { λ stars. record { keys = stars.darts.items; made = stars.made } };

    ghost invariant = { λ stars. IsStrictlyIncreasing stars.darts.items
        × (length stars.darts.items ≤ stars.made) × (stars.made ≤ made_max) };
}

impl Stars {
    /// New darts for these darts, which are among the darts 1 to `made`.
    pub fn new(darts: Vec<Dart>, made: u32) -> Self
        requires ascending { IsStrictlyIncreasing darts.items }
        requires made { All (λ d. (0 < d) × (d ≤ made)) darts.items }
        requires few { made ≤ made_max }
        ensures { result ≡ record { keys = darts.items; made = made } }
    {
        Stars { darts, made }
    }

    /// The darts that get new darts, ascending.
    pub fn darts(&self) -> &[Dart]
        ensures darts { result.now ≡ self.now.keys }
        ensures ascending { IsStrictlyIncreasing self.now.keys }
    {
        &self.darts
    }

    /// How many new darts there are.
    pub fn births(&self) -> u32
        ensures { result ≡ length self.now.keys }
    {
        self.darts.len() as u32
    }

    /// The dart from which the new darts are numbered on.
    pub fn first(&self) -> Dart
        ensures first { result ≡ self.now.made + 1 }
        ensures few { result + length self.now.keys ≤ 2 ^ 32 }
    {
        Dart::new(self.made + 1).unwrap()
    }

    /// The new dart of a dart that gets one.
    pub fn star(&self, dart: Dart) -> Dart
        requires { Contains self.now.keys dart }
        ensures star { result ≡ star_of self.now dart }
        ensures above { self.now.made < result }
    {
        match place_of(&self.darts, dart) {
            Some(place) => Dart::new(self.made + 1 + place as u32).unwrap(),
            None => unreachable!(),
        }
    }

    /// The place of a dart that gets a new dart, which is none of those before a place. It costs the places from there on.
    pub(crate) fn place_from(&self, place: usize, dart: Dart) -> usize
        requires key { Contains self.now.keys dart }
        requires after { (p : ℕ) → p < place → slice_index self.now.keys p ≢ dart }
        ensures within { result < length self.now.keys }
        ensures place { slice_index self.now.keys result ≡ dart }
        ensures before { (p : ℕ) → p < result → slice_index self.now.keys p < dart }
    {
        for at in place..self.darts.len() {
            if self.darts[at] == dart {
                return at;
            }
        }
        unreachable!()
    }

    /// The new dart of the dart at a place.
    pub fn star_at(&self, place: usize) -> Dart
        requires { place < length self.now.keys }
        ensures star { result ≡ star_of self.now (slice_index self.now.keys place) }
        ensures above { self.now.made < result }
    {
        Dart::new(self.made + 1 + place as u32).unwrap()
    }
}
