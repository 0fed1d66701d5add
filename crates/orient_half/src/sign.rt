use map_kind::Dart;
use std::marker::Model;

/// A dart and whether it is positive. Each link of an oriented map joins a positive dart to one that is not.
#[derive(Clone, Copy, Debug, PartialEq, Eq, Hash)]
pub struct Sign {
    pub dart: Dart,
    pub positive: bool,
}

impl Model for Sign {
    ghost use Rattle.half_defs.specs.Orientation as orientation;

    ghost Value = { orientation.Sign };

    ghost view = { λ s. record { dart = s.dart; positive = s.positive } };

    ghost inverse = { λ s. record { dart = s.dart; positive = s.positive } };
}
