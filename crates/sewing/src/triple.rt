ghost use Rattle.std.specs.Prelude.{◌≡◌, ◌<◌, ◌↔◌, IsTrue};
ghost use Rattle.map_defs.specs.Kind.{inverse};

use link_rows::Change;
use map_kind::{Dart, Kind};
use std::marker::Model;

/// Link `t` of dart `x` is to be dart `y`.
#[derive(Clone, Copy, Debug, PartialEq, Eq)]
pub struct Triple {
    pub x: Dart,
    pub y: Dart,
    pub t: usize,
}

impl Model for Triple {
    ghost use Rattle.sewing.specs.Triples as triples;

    ghost Value = { triples.Triple };

    ghost view = { λ triple. record { x = triple.x; y = triple.y; t = triple.t } };

    ghost inverse = { λ triple. record { x = triple.x; y = triple.y; t = triple.t } };
}

impl Triple {
    /// The same said of the other dart: the inverse link of `y` is to be `x`.
    pub(crate) fn turned<K: Kind>(self) -> Triple
        ensures { result ≡ record { x = self.y; y = self.x; t = inverse K.kind self.t } }
    {
        Triple {
            x: self.y,
            y: self.x,
            t: K::inverse(self.t),
        }
    }

    /// Whether a link that is its own inverse is to join a dart to itself.
    pub(crate) fn is_loop<K: Kind>(self) -> bool
        ensures { IsTrue result ↔ ((self.x ≡ self.y) × (inverse K.kind self.t ≡ self.t)) }
    {
        self.x == self.y && K::inverse(self.t) == self.t
    }

    /// The change by which link `t` of `x`, which is free, becomes `y`.
    pub(crate) fn joining(self) -> Change
        ensures { result ≡ record { dart = self.x; link = self.t; old = 0; new = self.y } }
    {
        Change::new(self.x, self.t, 0, self.y.number())
    }

    /// The change by which link `t` of `x`, which is `y`, becomes free.
    pub(crate) fn parting(self) -> Change
        ensures { result ≡ record { dart = self.x; link = self.t; old = self.y; new = 0 } }
    {
        Change::new(self.x, self.t, self.y.number(), 0)
    }
}
