ghost use Rattle.std.specs.Prelude.{◌≡◌, ◌≤◌, [], ◌∷◌, None, IfOk};
ghost use Rattle.map_defs.specs.Edits.{with_births};

use link_rows::{LinkBuilder, MADE_MAX, ReserveFault};
use map_kind::Kind;
use std::alloc::{AllocError, Global};

/// So many live darts, all of whose links are free, and which are no more than may be made.
pub(crate) fn free_darts<K: Kind, const DIM: usize>(
    alloc: Global,
    darts: u32,
) -> Result<LinkBuilder<K, DIM>, AllocError>
    requires low { 2 ≤ DIM }
    requires high { DIM ≤ 8 }
    requires few { darts ≤ MADE_MAX }
    ensures { IfOk result (λ builder. builder.rows ≡ with_births DIM darts (None ∷ [])) }
{
    match LinkBuilder::new(alloc, darts) {
        Ok(builder) => Ok(builder),
        Err(ReserveFault::NoMemory) => Err(AllocError),
        Err(ReserveFault::Full) => unreachable!(),
    }
}
