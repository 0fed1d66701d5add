ghost use Rattle.std.specs.Prelude.{◌≡◌, ◌+◌};

use std::ops::Range;

/// What a line that changes a map made: its first new dart and how many, the darts being numbered on from the first. Both
/// are 0 where no dart is made.
#[derive(Clone, Copy, Debug, PartialEq, Eq)]
pub struct Done {
    pub first: u32,
    pub count: u32,
}

impl Done {
    /// No dart was made.
    pub const NONE: Done = Done { first: 0, count: 0 };

    /// The number of the first new dart, as the calls of a map take numbers; 0 where no dart is made.
    pub fn first_dart(self) -> u64
        ensures { result ≡ self.first }
    {
        u64::from(self.first)
    }

    /// The numbers of the new darts, as the calls of a map take them: ascending, and none where no dart is made.
    pub fn darts(self) -> Range<u64>
        ensures first { result.start ≡ self.first }
        ensures count { result.end ≡ self.first + self.count }
    {
        let first = self.first_dart();
        first..first + u64::from(self.count)
    }
}
