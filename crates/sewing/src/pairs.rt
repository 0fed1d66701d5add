ghost use Rattle.std.specs.Prelude.{◌≡◌};
ghost use Rattle.sewing.specs.PairLists.{triples_of};

use crate::triple::Triple;

/// Pairs of darts that are joined or parted together. Few of them take no memory.
#[derive(Drop)]
pub(crate) enum Pairs {
    Two([Triple; 2]),
    Four([Triple; 4]),
    Many(Vec<Triple>),
}

impl Pairs {
    /// The triples of the pairs.
    pub(crate) fn triples(&self) -> &[Triple]
        ensures { result.now ≡ triples_of self.now }
    {
        match self {
            Pairs::Two(triples) => triples,
            Pairs::Four(triples) => triples,
            Pairs::Many(triples) => triples,
        }
    }
}
