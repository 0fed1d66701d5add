ghost use Rattle.std.specs.Prelude.{ℕ};
ghost use Rattle.map_defs.specs.Rows.{Rows};

use link_rows::Links;
use map_kind::Kind;

/// What holds the links of a map: contracts see its dimension and its rows. A trait that speaks of such a store can be used
/// for links of a dimension that is not known yet.
pub trait LinkStore {
    ghost dim: { ℕ };

    ghost rows: { Self → Rows };
}

impl<K: Kind, const DIM: usize> LinkStore for Links<K, DIM> {
    ghost dim = { DIM };

    ghost rows = { λ links. links.rows };
}
