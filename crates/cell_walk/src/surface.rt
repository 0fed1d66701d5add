//! The words and the ways of the cells of surfaces, whose orbits are all paths and rings.
ghost use Rattle.std.specs.Prelude.{◌≤◌, ◌↔◌, Contains};
ghost use Rattle.map_defs.specs.Kind.{alpha, beta};
ghost use Rattle.map_defs.specs.LinkWords.{LinkWord as MapWord, IsCellWord, IsWithin};
ghost use Rattle.cell_walk.specs.CellCourses.{AreCellWays};

use crate::ways::Ways;
use map_kind::{Kind, LinkWord, is_generalized};

/// The words of the cells of dimension `dim`, from 0 to 2, of a map of dimension 2: the words that `Kind::words` lists, but without
/// memory. An edge of a combinatorial map has one word, which stands twice.
pub fn surface_words<K: Kind>(dim: usize) -> [LinkWord; 2]
    requires { dim ≤ 2 }
    ensures { (w : MapWord) → Contains result w ↔ (IsCellWord K.kind dim w × IsWithin 2 w) }
{
    let ways = surface_ways::<K>(dim);
    [ways.forth.next, ways.back.next]
}

/// The ways along the words of the cells of dimension `dim` of a surface.
pub(crate) fn surface_ways<K: Kind>(dim: usize) -> Ways
    requires { dim ≤ 2 }
    ensures { AreCellWays K.kind 2 dim result }
{
    if is_generalized::<K>() {
        generalized_ways(dim)
    } else {
        combinatorial_ways(dim)
    }
}

/// Those of a generalized map: its two links that are not the cell's own take turns.
fn generalized_ways(dim: usize) -> Ways
    requires { dim ≤ 2 }
    ensures { AreCellWays alpha 2 dim result }
{
    match dim {
        0 => Ways::taking_turns(LinkWord::one(1), LinkWord::one(2)),
        1 => Ways::taking_turns(LinkWord::one(0), LinkWord::one(2)),
        _ => Ways::taking_turns(LinkWord::one(0), LinkWord::one(1)),
    }
}

/// Those of a combinatorial map: around a face link 1 leads on and link 0 back, along an edge link 2 leads both ways, and
/// around a vertex go two words of two links.
fn combinatorial_ways(dim: usize) -> Ways
    requires { dim ≤ 2 }
    ensures { AreCellWays beta 2 dim result }
{
    match dim {
        0 => Ways::keeping_on(LinkWord::two(2, 1), LinkWord::two(0, 2)),
        1 => Ways::keeping_on(LinkWord::one(2), LinkWord::one(2)),
        _ => Ways::keeping_on(LinkWord::one(1), LinkWord::one(0)),
    }
}
