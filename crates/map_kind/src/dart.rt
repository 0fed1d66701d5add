ghost use Rattle.std.specs.Prelude.{◌≡◌, ℕ, ◌<◌, ◌^◌, ◌↔◌, IsNone, IfSome};

use std::marker::Model;

/// The number of a dart. Darts count from 1, in the order in which they are made; 0 is no dart.
#[derive(Clone, Copy, Debug, PartialEq, Eq, PartialOrd, Ord, Hash)]
pub struct Dart {
    number: u32,
}

impl Model for Dart {
    ghost Value = { ℕ };

    ghost view = { λ d. d.number };

    ghost invariant = { λ d. 0 < d.number };

    ghost inverse = { λ n. record { number = n } };
}

impl Dart {
    /// The dart of this number; none exactly where the number is 0.
    pub fn new(number: u32) -> Option<Dart>
        ensures zero { IsNone result ↔ (number ≡ 0) }
        ensures same { IfSome result (λ dart. dart ≡ number) }
    {
        if number == 0 {
            return None;
        }
        Some(Dart { number })
    }

    /// The dart's number, which is never 0.
    pub fn number(self) -> u32
        ensures same { result ≡ self }
        ensures some { 0 < result }
    {
        self.number
    }
}
