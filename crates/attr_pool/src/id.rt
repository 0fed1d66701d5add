ghost use Rattle.std.specs.Prelude.{◌≡◌, ℕ, ◌<◌, ◌↔◌, IsNone, IfSome, Some, None};
ghost use Rattle.store_defs.specs.Labelings.{as_id};

use std::marker::Model;

/// The id of a value in a pool. An id can be given again once it is released.
#[derive(Clone, Copy, Debug, PartialEq, Eq, PartialOrd, Ord, Hash)]
pub struct AttrId {
    number: u32,
}

impl Model for AttrId {
    ghost Value = { ℕ };

    ghost view = { λ id. id.number };

    ghost invariant = { λ id. 0 < id.number };

    ghost inverse = { λ n. record { number = n } };
}

impl AttrId {
    /// The id of this number; none where the number is 0.
    pub(crate) fn new(number: u32) -> Option<AttrId>
        ensures { result ≡ as_id number }
    {
        if number == 0 {
            return None;
        }
        Some(AttrId { number })
    }

    /// The id's number, which is never 0.
    pub fn number(self) -> u32
        ensures same { result ≡ self }
        ensures some { 0 < result }
    {
        self.number
    }
}
