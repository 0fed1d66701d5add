ghost use Rattle.std.specs.Prelude.{◌≡◌, ℕ, ◌<◌, ◌↔◌, ◌⊎◌, length, slice_index, Contains, IfOk, IsTrue};
ghost use Rattle.transport.specs.Wanted.{IsMarked};

use map_kind::Dart;
use std::alloc::{AllocError, Global};
use std::marker::Model;

/// Darts whose cells are wanted, ascending, each once, and of each whether its cell is found.
#[derive(Drop)]
pub(crate) struct Wanted {
    darts: Vec<Dart>,
    found: Vec<bool>,
}

impl Model for Wanted {
    ghost use Rattle.std.specs.Prelude.{◌≡◌, length};
    ghost use Rattle.std.specs.List.Sorted.{IsStrictlyIncreasing};
    ghost use Rattle.transport.specs.Wanted as wanted;

    ghost Value = { wanted.Wanted };

    ghost view = { λ w. record { darts = w.darts.items; marks = w.found.items } };

    ghost invariant = { λ w. IsStrictlyIncreasing w.darts.items × (length w.found.items ≡ length w.darts.items) };
}

impl Wanted {
    /// These darts, of which no cell is found yet.
    pub(crate) fn new(alloc: Global, darts: &[Dart]) -> Result<Self, AllocError>
        ensures members { IfOk result (λ wanted. (d : ℕ) → Contains wanted.darts d ↔ Contains darts.now d) }
        ensures unmarked { IfOk result (λ wanted. (place : ℕ) → IsMarked wanted place → ⊥) }
    {
        let mut ascending = Vec::from_slice(alloc, darts)?;
        ascending.sort_unstable();
        ascending.dedup();
        let found = vec![in alloc; false; ascending.len()]?;
        Ok(Wanted {
            darts: ascending,
            found,
        })
    }

    /// How many darts there are.
    pub(crate) fn len(&self) -> usize
        ensures { result ≡ length self.now.darts }
    {
        self.darts.len()
    }

    /// The dart at a place.
    pub(crate) fn dart(&self, place: usize) -> Dart
        requires { place < length self.now.darts }
        ensures { result ≡ slice_index self.now.darts place }
    {
        self.darts[place]
    }

    /// Whether the cell of the dart at a place is found.
    pub(crate) fn is_found(&self, place: usize) -> bool
        requires { place < length self.now.darts }
        ensures { IsTrue result ↔ IsMarked self.now place }
    {
        self.found[place]
    }

    /// Marks the cell of these darts as found. It costs these darts times the logarithm of the darts that are wanted.
    pub(crate) fn mark(&mut self, cell: &[Dart])
        ensures darts { self.new.darts ≡ self.old.darts }
        ensures marks { (place : ℕ) → place < length self.old.darts
            → IsMarked self.new place ↔ (IsMarked self.old place ⊎ Contains cell.now (slice_index self.old.darts place)) }
    {
        for dart in cell {
            self.mark_one(*dart);
        }
    }

    /// Marks the cell of a dart as found, if it is wanted.
    fn mark_one(&mut self, dart: Dart)
        ensures darts { self.new.darts ≡ self.old.darts }
        ensures marks { (place : ℕ) → place < length self.old.darts
            → IsMarked self.new place ↔ (IsMarked self.old place ⊎ (dart ≡ slice_index self.old.darts place)) }
    {
        let Ok(place) = self.darts.binary_search(&dart) else {
            return;
        };
        self.found[place] = true;
    }
}
