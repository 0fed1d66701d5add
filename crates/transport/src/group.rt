ghost use Rattle.std.specs.Prelude.{◌≡◌};
ghost use Rattle.store_defs.specs.Groups.{least_of, darts_in};

use attr_rules::TableRule;
use map_kind::{Dart, Value};
use std::marker::Model;

/// A cell of dimension `dim` of the new map: its darts, ascending, and its value, if it has one.
#[derive(Drop)]
pub struct Group {
    pub dim: usize,
    pub darts: Vec<Dart>,
    pub value: Option<Value>,
}

impl Model for Group {
    ghost use Rattle.store_defs.specs.Groups as groups;

    ghost Value = { groups.Group };

    ghost view = { λ group. record { dim = group.dim; darts = group.darts.items; value = group.value } };
}

/// The rules of the dimensions 0 to `DIM`, in this order; none where a dimension has no rule, and so no values.
#[derive(Drop)]
pub struct RuleRow {
    pub rules: Vec<Option<TableRule>>,
}

impl Model for RuleRow {
    ghost use Rattle.std.specs.Prelude.{List, Option};
    ghost use Rattle.map_defs.specs.Values as values;

    ghost Value = { List (Option values.Rule) };

    ghost view = { λ row. row.rules.items };
}

/// The darts that a change of links touched in each dimension, in the order of the dimensions from 0 on; none in a dimension
/// that has no list. Some may stand in a list more than once.
#[derive(Drop)]
pub struct TouchedDarts {
    pub by_dim: Vec<Vec<Dart>>,
}

impl Model for TouchedDarts {
    ghost use Rattle.std.specs.Prelude.{List, ℕ, map};

    ghost Value = { List (List ℕ) };

    ghost view = { λ touched. map (λ darts. darts.items) touched.by_dim.items };
}

impl TouchedDarts {
    /// The darts that were touched in a dimension; none where the dimension has no list.
    pub fn in_dim(&self, dim: usize) -> &[Dart]
        ensures { result.now ≡ darts_in self.now dim }
    {
        match self.by_dim.get(dim) {
            Some(darts) => darts,
            None => &[],
        }
    }
}

impl Group {
    /// The number of the least dart, which stands first; 0 where there is no dart.
    pub(crate) fn least(&self) -> u32
        ensures { result ≡ least_of self.now }
    {
        match self.darts.first() {
            Some(dart) => dart.number(),
            None => 0,
        }
    }
}
