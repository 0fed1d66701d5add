ghost use Rattle.std.specs.Prelude.{◌≡◌, ◌+◌, ◌*◌, ◌≤◌, [], IfOk, vec_capacity};

use link_rows::Change;
use std::alloc::{AllocError, Global};

/// No changes yet, with room for those of so many darts of a map of dimension `dim`: one of each link, and one more, of the
/// link that leads to the dart.
pub fn room_for_changes(alloc: Global, darts: usize, dim: usize) -> Result<Vec<Change>, AllocError>
    requires { dim ≤ 8 }
    ensures items { IfOk result (λ changes. changes.items ≡ []) }
    ensures room { IfOk result (λ changes. darts * (dim + 2) ≤ vec_capacity changes) }
{
    Vec::with_capacity(alloc, darts.saturating_mul(dim + 2))
}

/// No changes yet, with room for those of so many darts of a map of dimension `dim`, as `room_for_changes` has it, and for one
/// of each of so many pairs.
pub(crate) fn room_for_insertion(
    alloc: Global,
    darts: usize,
    dim: usize,
    pairs: usize,
) -> Result<Vec<Change>, AllocError>
    requires { dim ≤ 8 }
    ensures items { IfOk result (λ changes. changes.items ≡ []) }
    ensures room { IfOk result (λ changes. darts * (dim + 2) + pairs ≤ vec_capacity changes) }
{
    Vec::with_capacity(alloc, darts.saturating_mul(dim + 2).saturating_add(pairs))
}
