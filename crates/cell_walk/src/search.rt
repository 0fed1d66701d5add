ghost use Rattle.std.specs.Prelude.{◌↔◌, All, Contains, IfOk, IsTrue};
ghost use Rattle.map_defs.specs.Rows.{links_of};
ghost use Rattle.map_defs.specs.LinkWords.{IsWithin};
ghost use Rattle.map_defs.specs.Cells.{InOrbit, Leads};

use crate::found::Found;
use crate::orbits::visit;
use crate::seen::Few;
use link_rows::Links;
use map_kind::{Dart, Kind, LinkWord};
use std::alloc::{AllocError, Global};

/// Whether the orbit of `one` under some words holds `other`. The walk goes from `one` to nearer darts first, and stops as
/// soon as it has found `other`: it costs the darts that are not farther than that, for each word, times a logarithm, and
/// the whole orbit only where `other` is not there.
///
/// The words' links are links of the map.
pub fn reaches<K: Kind, const DIM: usize>(
    alloc: Global,
    links: &Links<K, DIM>,
    words: &[LinkWord],
    one: Dart,
    other: Dart,
) -> Result<bool, AllocError>
    requires { All (IsWithin DIM) words.now }
    ensures { IfOk result (λ reaches. IsTrue reaches
        ↔ InOrbit (Leads (links_of links.now.rows) (Contains words.now)) one other) }
{
    let mut found = Found::<Few>::new(alloc);
    found.put(one)?;
    let mut next = 0;
    while next < found.len() {
        if found.contains(other) {
            return Ok(true);
        }
        visit(links, words, found.at(next), &mut found)?;
        next += 1;
    }
    Ok(found.contains(other))
}
