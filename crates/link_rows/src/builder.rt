ghost use Rattle.std.specs.Prelude.{◌≡◌, ◌≤◌, ◌<◌, ◌↔◌, [], ◌∷◌, None, IfOk, IsErrOf};
ghost use Rattle.map_defs.specs.Rows.{IsSound};
ghost use Rattle.map_defs.specs.Edits.{with_births, with_entry};

use crate::links::Links;
use crate::steps;
use dart_arena::{Arena, MADE_MAX, ReserveFault};
use map_kind::{Dart, Kind};
use std::alloc::Global;
use std::marker::{Model, PhantomData};

/// The links of a map that is made from nothing: all its darts are there, and each link is set by itself, so that a link
/// need not lead back meanwhile. It is seen as the stock of its rows.
#[derive(Drop)]
pub struct LinkBuilder<K: Kind, const DIM: usize> {
    rows: Arena<DIM>,
    kind: PhantomData<K>,
}

impl<K: Kind, const DIM: usize> Model for LinkBuilder<K, DIM> {
    ghost use Rattle.std.specs.Prelude.{List, ℕ, length, ◌<◌, ◌≤◌};
    ghost use Rattle.dart_arena.specs.Stock.{Stock};

    ghost Value = { Stock (List ℕ) };

    ghost view = { λ builder. builder.rows };

    ghost invariant = { λ builder. (DIM ≤ 8) × (0 < length builder.rows.rows) × (2 ≤ DIM) };
}

impl<K: Kind, const DIM: usize> LinkBuilder<K, DIM> {
    /// So many live darts, all of whose links are free. `Full` comes exactly where they are more than `MADE_MAX`.
    pub fn new(alloc: Global, darts: u32) -> Result<Self, ReserveFault>
        requires low { 2 ≤ DIM }
        requires high { DIM ≤ 8 }
        ensures rows { IfOk result (λ builder. builder.rows ≡ with_births DIM darts (None ∷ [])) }
        ensures full { IsErrOf result ReserveFault.Full ↔ (MADE_MAX < darts) }
    {
        let mut rows = Arena::new(alloc);
        match rows.reserve(darts) {
            Ok(()) => {
                steps::bear(&mut rows, darts);
                Ok(LinkBuilder {
                    rows,
                    kind: PhantomData,
                })
            }
            Err(fault) => Err(fault),
        }
    }

    /// Sets a link of a dart, if the dart is live.
    pub fn set(&mut self, dart: Dart, link: usize, to: u32)
        requires { link ≤ DIM }
        ensures { self.new.rows ≡ with_entry self.old.rows dart link to }
    {
        self.rows.set_entry(dart, link, to);
    }

    /// The links as they were set, where the inverse link leads back.
    pub fn finish(self) -> Links<K, DIM>
        requires { IsSound K.kind DIM self.rows }
        ensures { result.rows ≡ self.rows }
    {
        Links {
            rows: self.rows,
            kind: PhantomData,
        }
    }
}
