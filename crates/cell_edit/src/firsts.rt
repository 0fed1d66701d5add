ghost use Rattle.std.specs.Prelude.{ℕ, ◌↔◌, Contains, IfOk};
ghost use Rattle.std.specs.List.Sorted.{IsStrictlyIncreasing};
ghost use Rattle.sewing.specs.Triples.{IsAscending};
ghost use Rattle.cell_edit.specs.Writing.{IsCornerOf};

use map_kind::Dart;
use sewing::Triple;
use std::alloc::{AllocError, Global};

/// The corners of an edge's pairs, ascending: the first darts of those at link 0.
pub fn corners(alloc: Global, pairs: &[Triple]) -> Result<Vec<Dart>, AllocError>
    requires { IsAscending pairs.now }
    ensures members { IfOk result (λ corners. (x : ℕ) → Contains corners.items x ↔ IsCornerOf pairs.now x) }
    ensures ascending { IfOk result (λ corners. IsStrictlyIncreasing corners.items) }
{
    let mut corners = Vec::with_capacity(alloc, pairs.len())?;
    for pair in pairs {
        if pair.t != 0 {
            continue;
        }
        corners.push(pair.x)?;
    }
    Ok(corners)
}
