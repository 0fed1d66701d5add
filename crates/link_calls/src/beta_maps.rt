//! Combinatorial maps for the tests, and what they compare. Each test makes and drops its map in a function of its own.
ghost use Rattle.std.specs.Prelude.{◌≤◌};
ghost use Rattle.map_defs.specs.Kind.{beta};
ghost use Rattle.map_defs.specs.Rows.{links_of};
ghost use Rattle.map_defs.specs.Laws.{Laws};

use crate::maps::{dart, sew};
use link_rows::Links;
use map_kind::Beta;
use std::alloc::{AllocError, Global};
use std::process::Abort;

/// The map without darts.
pub fn no_darts<const DIM: usize>(alloc: Global) -> Links<Beta, DIM>
    requires low { 2 ≤ DIM }
    requires high { DIM ≤ 8 }
    ensures { Laws beta (links_of result.rows) }
{
    Links::new(alloc)
}

/// Sews the two darts of each pair.
pub fn sew_pairs<const DIM: usize>(
    rt: &impl Abort,
    alloc: Global,
    links: &mut Links<Beta, DIM>,
    link: usize,
    pairs: &[(u32, u32)],
)
    requires link { link ≤ DIM }
    requires laws { Laws beta (links_of links.old.rows) }
    ensures { Laws beta (links_of links.new.rows) }
{
    for pair in pairs {
        sew(rt, alloc, links, link, pair.0, pair.1);
    }
}

/// The links 0 to `DIM` of live darts.
fn rows<const DIM: usize>(
    rt: &impl Abort,
    alloc: Global,
    links: &Links<Beta, DIM>,
    numbers: &[u32],
) -> Result<Vec<u32>, AllocError> {
    let mut rows = Vec::new(alloc);
    for number in numbers {
        let dart = dart(rt, links, *number);
        for link in 0..links.dimension() + 1 {
            rows.push(links.number_at(dart, link))?;
        }
    }
    Ok(rows)
}

/// Compares the links 0 to `DIM` of live darts.
pub fn check_rows<const DIM: usize>(
    rt: &impl Abort,
    alloc: Global,
    links: &Links<Beta, DIM>,
    numbers: &[u32],
    wanted: &[u32],
) {
    match rows(rt, alloc, links, numbers) {
        Ok(rows) => assert_eq!(rt; rows.as_slice(), wanted),
        Err(_) => panic!(rt; "no memory"),
    }
}
