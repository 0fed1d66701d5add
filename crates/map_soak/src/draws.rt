//! The generator of numbers.
ghost use Rattle.std.specs.Prelude.{◌≡◌};
ghost use Rattle.machine_defs.specs.Soaking.{next_seed, drawn};

/// A generator of numbers below 2^31, each of which makes the next.
#[derive(Clone, Copy, Debug, PartialEq, Eq)]
pub(crate) struct Draws {
    pub(crate) number: u32,
}

impl Draws {
    /// Makes the next number, and answers its 15 upper bits.
    pub(crate) fn draw(&mut self) -> u32
        ensures next { self.new.number ≡ next_seed self.old.number }
        ensures drawn { result ≡ drawn (next_seed self.old.number) }
    {
        let next = (u64::from(self.number) * 1_103_515_245 + 12_345) % 2_147_483_648;
        self.number = next as u32;
        self.number / 65_536
    }
}
