ghost use Rattle.std.specs.Prelude.{◌≡◌};

use map_kind::{Dart, Value};
use std::marker::Model;

/// A change of the value of one dart in one dimension. `old` and `new` are the value before and after, and none where
/// the dart's cell has no value.
#[derive(Clone, Copy, Debug, PartialEq, Eq)]
pub struct ValueChange {
    pub dim: usize,
    pub dart: Dart,
    pub old: Option<Value>,
    pub new: Option<Value>,
}

impl Model for ValueChange {
    ghost use Rattle.machine_defs.specs.Difference as differences;

    ghost Value = { differences.ValueChange };

    ghost view = { λ change. record { dim = change.dim; dart = change.dart; old = change.old; new = change.new } };

    ghost inverse = { λ change. record { dim = change.dim; dart = change.dart; old = change.old; new = change.new } };
}
