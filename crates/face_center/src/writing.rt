ghost use Rattle.std.specs.Prelude.{ℕ, ◌≡◌, ◌+◌, ◌*◌, ◌≤◌, ◌<◌, [], IfOk, vec_len, vec_capacity};
ghost use Rattle.cell_edit.specs.Writing.{IsLinkEntry, Appends};

use link_rows::Change;
use map_kind::Dart;
use std::alloc::{AllocError, Global};

/// No changes yet, with room for those of so many darts of a map of dimension `dim`, on each of which an edge is hung: one of
/// each link of its two new darts, and two of old darts.
pub(crate) fn room_for_edges(
    alloc: Global,
    darts: usize,
    dim: usize,
) -> Result<Vec<Change>, AllocError>
    requires { dim ≤ 8 }
    ensures items { IfOk result (λ changes. changes.items ≡ []) }
    ensures room { IfOk result (λ changes. darts * (2 * dim + 4) ≤ vec_capacity changes) }
{
    Vec::with_capacity(alloc, darts.saturating_mul(2 * dim + 4))
}

/// Appends the change by which a link of a dart that is free becomes another dart. There is room for it.
pub(crate) fn push_joined(dart: Dart, link: usize, other: Dart, changes: &mut Vec<Change>)
    requires room { vec_len changes.old < vec_capacity changes.old }
    ensures capacity { vec_capacity changes.new ≡ vec_capacity changes.old }
    ensures few { vec_len changes.new ≤ vec_len changes.old + 1 }
    ensures entry { (L : ℕ → ℕ → ℕ) → L link dart ≡ 0
        → Appends L (IsLinkEntry dart link other) changes.old.items changes.new.items }
{
    changes.push_reserved(Change::new(dart, link, 0, other.number()));
}
