//! Maps of both kinds for the tests, and what they compare.
ghost use Rattle.std.specs.Prelude.{◌≡◌, ◌≤◌};
ghost use Rattle.map_defs.specs.Rows.{links_of, IsLive, IsSound};
ghost use Rattle.map_defs.specs.Laws.{Laws};
ghost use Rattle.map_defs.specs.Edits.{Fits, after_edit};

use link_rows::{Edit, Links, polygon_edit};
use map_kind::{Dart, Kind, Refused};
use sewing::{sew_plan, unsew_plan};
use std::alloc::{AllocError, Global};
use std::process::Abort;

/// A polygon of so many sides, numbered on from those that were made.
pub fn polygon<K: Kind, const DIM: usize>(
    rt: &impl Abort,
    alloc: Global,
    links: &mut Links<K, DIM>,
    sides: u32,
)
    requires low { 3 ≤ sides }
    requires high { sides ≤ 9 }
    requires laws { Laws K.kind (links_of links.old.rows) }
    ensures { Laws K.kind (links_of links.new.rows) }
{
    assert!(rt; links.reserve(K::per_side() * sides).is_ok());
    match polygon_edit(alloc, links, sides) {
        Ok(edit) => links.apply(&edit),
        Err(_) => panic!(rt; "no memory"),
    }
}

/// A live dart.
pub fn dart<K: Kind, const DIM: usize>(rt: &impl Abort, links: &Links<K, DIM>, number: u32) -> Dart
    ensures live { IsLive links.now.rows result }
    ensures number { result ≡ number }
    ensures low { 2 ≤ DIM }
    ensures sound { IsSound K.kind DIM links.now.rows }
{
    let dart = Dart::new(number).expect(rt, "0 is no dart");
    let _ = links.dimension();
    assert!(rt; links.is_live(dart));
    dart
}

/// Sews two darts that can be sewn.
pub fn sew<K: Kind, const DIM: usize>(
    rt: &impl Abort,
    alloc: Global,
    links: &mut Links<K, DIM>,
    link: usize,
    one: u32,
    other: u32,
)
    requires link { link ≤ DIM }
    requires laws { Laws K.kind (links_of links.old.rows) }
    ensures { Laws K.kind (links_of links.new.rows) }
{
    let one = dart(rt, links, one);
    let other = dart(rt, links, other);
    match sew_plan(alloc, links, link, one, other) {
        Ok(edit) => links.apply(&edit),
        Err(_) => panic!(rt; "not sewn"),
    }
}

/// Frees a link of a dart that is not free.
pub fn unsew<K: Kind, const DIM: usize>(
    rt: &impl Abort,
    alloc: Global,
    links: &mut Links<K, DIM>,
    link: usize,
    number: u32,
)
    requires link { link ≤ DIM }
    requires laws { Laws K.kind (links_of links.old.rows) }
    ensures { Laws K.kind (links_of links.new.rows) }
{
    let dart = dart(rt, links, number);
    match unsew_plan(alloc, links, link, dart) {
        Ok(edit) => links.apply(&edit),
        Err(_) => panic!(rt; "not unsewn"),
    }
}

/// Makes an edit that is planned.
pub fn apply<K: Kind, const DIM: usize>(rt: &impl Abort, links: &mut Links<K, DIM>, edit: &Edit)
    requires { Fits K.kind DIM links.old.rows edit.now }
    ensures { links.new.rows ≡ after_edit DIM edit.now links.old.rows }
{
    assert!(rt; links.reserve(edit.births).is_ok());
    links.apply(edit);
}

/// The links 0 to `DIM` of the darts from number 1 to another.
fn rows<K: Kind, const DIM: usize>(
    rt: &impl Abort,
    alloc: Global,
    links: &Links<K, DIM>,
    last: u32,
) -> Result<Vec<u32>, AllocError>
    requires { last ≤ 99 }
{
    let mut rows = Vec::new(alloc);
    for number in 1..last + 1 {
        let dart = dart(rt, links, number);
        for link in 0..links.dimension() + 1 {
            rows.push(links.number_at(dart, link))?;
        }
    }
    Ok(rows)
}

/// Compares the links 0 to `DIM` of the darts from number 1 to another.
pub fn check_rows<K: Kind, const DIM: usize>(
    rt: &impl Abort,
    alloc: Global,
    links: &Links<K, DIM>,
    last: u32,
    wanted: &[u32],
)
    requires { last ≤ 99 }
{
    match rows(rt, alloc, links, last) {
        Ok(rows) => assert_eq!(rt; rows.as_slice(), wanted),
        Err(_) => panic!(rt; "no memory"),
    }
}

/// Compares why there is no plan.
pub fn check_refusal(rt: &impl Abort, planned: Result<Edit, Refused>, wanted: Refused) {
    match planned {
        Ok(_) => panic!(rt; "not refused"),
        Err(refused) => assert_eq!(rt; refused, wanted),
    }
}
