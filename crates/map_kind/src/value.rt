use crate::Dart;
use std::marker::Model;

/// The value of a cell: three whole numbers. What they mean is for the caller to say, as the coordinates of a vertex.
#[derive(Clone, Copy, Debug, PartialEq, Eq, Hash)]
pub struct Value {
    pub a: i64,
    pub b: i64,
    pub c: i64,
}

impl Model for Value {
    ghost use Rattle.map_defs.specs.Values as values;

    ghost Value = { values.Value };

    ghost view = { λ v. record { a = v.a; b = v.b; c = v.c } };

    ghost inverse = { λ v. record { a = v.a; b = v.b; c = v.c } };
}

/// A cell that is named by its least dart, and the value of that cell. The cell's dimension is told beside it.
#[derive(Clone, Copy, Debug, PartialEq, Eq, Hash)]
pub struct Place {
    pub dart: Dart,
    pub value: Value,
}

impl Model for Place {
    ghost use Rattle.map_defs.specs.Values as values;

    ghost Value = { values.Place };

    ghost view = { λ p. record { dart = p.dart; value = p.value } };

    ghost inverse = { λ p. record { dart = p.dart; value = p.value } };
}
