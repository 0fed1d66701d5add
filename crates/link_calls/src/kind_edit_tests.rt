ghost use Rattle.std.specs.Prelude.{◌≡◌, ◌≤◌};
ghost use Rattle.map_defs.specs.Kind.{beta};
ghost use Rattle.map_defs.specs.Rows.{links_of, IsLive, IsSound};
ghost use Rattle.map_defs.specs.Laws.{Laws};
ghost use Rattle.map_defs.specs.Edits.{Fits, after_edit};

use kind_edit::Plans;
use link_rows::{Edit, Links, polygon_edit};
use map_kind::{Beta, Dart, Refusal, Refused};
use sewing::sew_plan;
use std::alloc::{AllocError, Global};
use std::process::Abort;
use std::test::Fail;

fn dart<const DIM: usize>(rt: &impl Abort, links: &Links<Beta, DIM>, number: u32) -> Dart
    ensures live { IsLive links.now.rows result }
    ensures number { result ≡ number }
    ensures low { 2 ≤ DIM }
    ensures sound { IsSound beta DIM links.now.rows }
{
    links.see_sound();
    let dart = Dart::new(number).expect(rt, "0 is no dart");
    assert!(rt; links.is_live(dart));
    dart
}

fn triangle<const DIM: usize>(rt: &impl Abort, alloc: Global, links: &mut Links<Beta, DIM>)
    requires { Laws beta (links_of links.old.rows) }
    ensures { Laws beta (links_of links.new.rows) }
{
    match links.reserve(3) {
        Ok(()) => {}
        Err(_) => panic!(rt; "no room"),
    }
    match polygon_edit(alloc, links, 3) {
        Ok(edit) => links.apply(&edit),
        Err(_) => panic!(rt; "no memory"),
    }
}

fn sew<const DIM: usize>(
    rt: &impl Abort,
    alloc: Global,
    links: &mut Links<Beta, DIM>,
    link: usize,
    one: u32,
    other: u32,
)
    requires link { link ≤ DIM }
    requires laws { Laws beta (links_of links.old.rows) }
    ensures { Laws beta (links_of links.new.rows) }
{
    let one = dart(rt, links, one);
    let other = dart(rt, links, other);
    match sew_plan(alloc, links, link, one, other) {
        Ok(edit) => links.apply(&edit),
        Err(_) => panic!(rt; "not sewn"),
    }
}

/// Makes the map its dual, which it has.
fn turn<const DIM: usize>(rt: &impl Abort, alloc: Global, links: &mut Links<Beta, DIM>)
    requires { Laws beta (links_of links.old.rows) }
    ensures { Laws beta (links_of links.new.rows) }
{
    match Beta::take_dual(alloc, links) {
        Ok(()) => {}
        Err(_) => panic!(rt; "no dual"),
    }
}

/// The numbers of the darts at links 1 and `DIM` of the first darts, link 1 of all before.
fn ways<const DIM: usize>(
    rt: &impl Abort,
    alloc: Global,
    links: &Links<Beta, DIM>,
    darts: u32,
) -> Result<Vec<u32>, AllocError> {
    let mut ways = Vec::new(alloc);
    for link in [1, links.dimension()] {
        for number in 0..darts {
            let dart = Dart::new(number + 1).expect(rt, "0 is no dart");
            ways.push(links.number_at(dart, link))?;
        }
    }
    Ok(ways)
}

fn apply<const DIM: usize>(rt: &impl Abort, links: &mut Links<Beta, DIM>, edit: &Edit)
    requires fits { Fits beta DIM links.old.rows edit.now }
    requires laws { Laws beta (links_of (after_edit DIM edit.now links.old.rows)) }
    ensures { Laws beta (links_of links.new.rows) }
{
    assert!(rt; links.reserve(edit.births).is_ok());
    links.apply(edit);
}

// Two triangles that are sewn along all sides; in the dual each vertex has become a face of two sides.
#[test]
fn a_combinatorial_map_becomes_its_dual(rt: HostRuntime) -> Result<(), Fail> {
    let alloc = rt.alloc();
    let mut links = Links::<Beta, 2>::new(alloc);
    triangle(&rt, alloc, &mut links);
    triangle(&rt, alloc, &mut links);
    sew(&rt, alloc, &mut links, 2, 1, 4);
    sew(&rt, alloc, &mut links, 2, 2, 6);
    let open = Beta::take_dual(alloc, &mut links);
    assert_eq!(&rt; open, Err(Refused::Line(Refusal::Boundary)));
    sew(&rt, alloc, &mut links, 2, 3, 5);
    let whole = [2, 3, 1, 5, 6, 4, 4, 6, 5, 1, 3, 2];
    assert_eq!(&rt; ways(&rt, alloc, &links, 6)?.as_slice(), whole.as_slice());
    turn(&rt, alloc, &mut links);
    assert_eq!(&rt;
        ways(&rt, alloc, &links, 6)?.as_slice(),
        [5, 4, 6, 2, 1, 3, 4, 6, 5, 1, 3, 2].as_slice()
    );
    turn(&rt, alloc, &mut links);
    assert_eq!(&rt; ways(&rt, alloc, &links, 6)?.as_slice(), whole.as_slice());
    Ok(())
}

// Two triangles that are sewn by link 8 get a vertex, and lose it again.
#[test]
fn combinatorial_maps_go_up_to_dimension_8(rt: HostRuntime) -> Result<(), Fail> {
    let alloc = rt.alloc();
    let mut links = Links::<Beta, 8>::new(alloc);
    triangle(&rt, alloc, &mut links);
    triangle(&rt, alloc, &mut links);
    sew(&rt, alloc, &mut links, 8, 1, 4);
    let whole = ways(&rt, alloc, &links, 6)?;
    let one = dart(&rt, &links, 1);
    let edit = Beta::vertex_plan(alloc, &links, one)?;
    apply(&rt, &mut links, &edit);
    assert_eq!(&rt;
        ways(&rt, alloc, &links, 8)?.as_slice(),
        [7, 3, 1, 8, 6, 4, 2, 5, 8, 6, 5, 7, 3, 2, 4, 1].as_slice()
    );
    let new = dart(&rt, &links, 7);
    assert_eq!(&rt; Beta::removable(alloc, &links, 0, new), Ok(true));
    assert_eq!(&rt; Beta::contractible(alloc, &links, 0, new), Ok(false));
    match Beta::remove_plan(alloc, &links, 0, new) {
        Ok(edit) => apply(&rt, &mut links, &edit),
        Err(_) => panic!(&rt; "not removed"),
    }
    assert_eq!(&rt; ways(&rt, alloc, &links, 6)?.as_slice(), whole.as_slice());
    Ok(())
}
