ghost use Rattle.std.specs.Prelude.{◌≡◌, ◌+◌, ◌≤◌, ◌<◌, ◌^◌};
ghost use Rattle.map_defs.specs.Kind.{alpha, beta};
ghost use Rattle.map_defs.specs.Rows.{links_of};
ghost use Rattle.map_defs.specs.Laws.{Laws};

use link_rows::{Links, PlainEdit};
use map_kind::{Alpha, Beta, Dart, Kind, Refusal, Refused};
use sewing::{Triple, pair, sew_plan, sewable, unsew_plan};
use std::alloc::{AllocError, Global};
use std::process::Abort;
use std::test::Fail;

/// A map of so many darts without links.
fn loose<K: Kind, const DIM: usize>(rt: &impl Abort, alloc: Global, darts: u32) -> Links<K, DIM>
    requires low { 2 ≤ DIM }
    requires high { DIM ≤ 8 }
    ensures { Laws K.kind (links_of result.rows) }
{
    let mut links = Links::<K, DIM>::new(alloc);
    match links.reserve(darts) {
        Ok(()) => links.apply_plain(&PlainEdit {
            births: darts,
            deaths: Vec::new(alloc),
            changes: Vec::new(alloc),
        }),
        Err(_) => panic!(rt; "no room"),
    }
    links
}

/// Sews two darts that can be sewn.
fn sew<K: Kind, const DIM: usize>(
    rt: &impl Abort,
    alloc: Global,
    links: &mut Links<K, DIM>,
    link: usize,
    one: u32,
    other: u32,
)
    requires link { link ≤ DIM }
    requires laws { Laws K.kind (links_of links.old.rows) }
    ensures { Laws K.kind (links_of links.new.rows) }
{
    let one = dart(rt, one);
    let other = dart(rt, other);
    assert!(rt; links.is_live(one));
    assert!(rt; links.is_live(other));
    match sew_plan(alloc, links, link, one, other) {
        Ok(edit) => links.apply(&edit),
        Err(_) => panic!(rt; "not sewn"),
    }
}

/// Sews six darts to a triangle, numbered on from `first`.
fn triangle<const DIM: usize>(
    rt: &impl Abort,
    alloc: Global,
    links: &mut Links<Alpha, DIM>,
    first: u32,
)
    requires first { first + 5 < 2 ^ 32 }
    requires low { 1 ≤ DIM }
    requires laws { Laws alpha (links_of links.old.rows) }
    ensures { Laws alpha (links_of links.new.rows) }
{
    sew(rt, alloc, links, 0, first, first + 1);
    sew(rt, alloc, links, 0, first + 2, first + 3);
    sew(rt, alloc, links, 0, first + 4, first + 5);
    sew(rt, alloc, links, 1, first + 1, first + 2);
    sew(rt, alloc, links, 1, first + 3, first + 4);
    sew(rt, alloc, links, 1, first + 5, first);
}

/// Sews three darts of a combinatorial map to a triangle, numbered on from `first`.
fn directed_triangle<const DIM: usize>(
    rt: &impl Abort,
    alloc: Global,
    links: &mut Links<Beta, DIM>,
    first: u32,
)
    requires first { first + 2 < 2 ^ 32 }
    requires low { 1 ≤ DIM }
    requires laws { Laws beta (links_of links.old.rows) }
    ensures { Laws beta (links_of links.new.rows) }
{
    sew(rt, alloc, links, 1, first, first + 1);
    sew(rt, alloc, links, 1, first + 1, first + 2);
    sew(rt, alloc, links, 1, first + 2, first);
}

fn dart(rt: &impl Abort, number: u32) -> Dart {
    Dart::new(number).expect(rt, "0 is no dart")
}

fn numbers(alloc: Global, pairs: &[Triple]) -> Result<Vec<(u32, u32, usize)>, AllocError> {
    let mut numbers = Vec::new(alloc);
    for pair in pairs {
        numbers.push((pair.x.number(), pair.y.number(), pair.t))?;
    }
    Ok(numbers)
}

#[test]
fn pairs_go_along_the_links_of_the_set(rt: HostRuntime) -> Result<(), Fail> {
    let alloc = rt.alloc();
    let mut links = loose::<Alpha, 2>(&rt, alloc, 12);
    triangle(&rt, alloc, &mut links, 1);
    triangle(&rt, alloc, &mut links, 7);
    let seeds = [Triple {
        x: dart(&rt, 1),
        y: dart(&rt, 7),
        t: 2,
    }];
    match pair(alloc, &links, &seeds, &[0]) {
        Ok(pairs) => {
            assert_eq!(&rt;
                numbers(alloc, &pairs)?.as_slice(),
                [(1, 7, 2), (2, 8, 2), (7, 1, 2), (8, 2, 2)].as_slice()
            );
        }
        Err(_) => panic!(&rt; "not paired"),
    }
    Ok(())
}

#[test]
fn sews_and_unsews_two_triangles(rt: HostRuntime) -> Result<(), Fail> {
    let alloc = rt.alloc();
    let mut links = loose::<Alpha, 2>(&rt, alloc, 12);
    triangle(&rt, alloc, &mut links, 1);
    triangle(&rt, alloc, &mut links, 7);
    sew(&rt, alloc, &mut links, 2, 1, 7);
    assert_eq!(&rt; links.link(dart(&rt, 2), 2), Some(dart(&rt, 8)));
    assert_eq!(&rt; links.link(dart(&rt, 8), 2), Some(dart(&rt, 2)));
    match unsew_plan(alloc, &links, 2, dart(&rt, 8)) {
        Ok(edit) => links.apply(&edit),
        Err(_) => panic!(&rt; "not unsewn"),
    }
    assert_eq!(&rt; links.link(dart(&rt, 1), 2), None);
    assert_eq!(&rt; links.link(dart(&rt, 7), 2), None);
    assert!(&rt;
        matches!(
            unsew_plan(alloc, &links, 2, dart(&rt, 8)),
            Err(Refused::Line(Refusal::AlreadyFree))
        )
    );
    Ok(())
}

#[test]
fn folds_an_edge_but_sews_no_dart_to_itself(rt: HostRuntime) -> Result<(), Fail> {
    let alloc = rt.alloc();
    let mut links = loose::<Alpha, 2>(&rt, alloc, 6);
    triangle(&rt, alloc, &mut links, 1);
    let one = dart(&rt, 1);
    assert!(&rt; !sewable(alloc, &links, 2, one, one)?);
    assert!(&rt; links.is_live(one));
    assert!(&rt;
        matches!(
            sew_plan(alloc, &links, 2, one, one),
            Err(Refused::Line(Refusal::Unsewable))
        )
    );
    sew(&rt, alloc, &mut links, 2, 1, 2);
    assert_eq!(&rt; links.link(dart(&rt, 1), 2), Some(dart(&rt, 2)));
    assert!(&rt; !sewable(alloc, &links, 2, dart(&rt, 1), dart(&rt, 2))?);
    Ok(())
}

// A triangle can be turned over, but not turned round by a side.
#[test]
fn a_face_is_sewn_to_itself_only_where_it_fits(rt: HostRuntime) -> Result<(), Fail> {
    let alloc = rt.alloc();
    let mut links = loose::<Alpha, 3>(&rt, alloc, 6);
    triangle(&rt, alloc, &mut links, 1);
    assert!(&rt; sewable(alloc, &links, 3, dart(&rt, 1), dart(&rt, 2))?);
    assert!(&rt; !sewable(alloc, &links, 3, dart(&rt, 1), dart(&rt, 3))?);
    Ok(())
}

// The darts of two faces of a combinatorial map that are sewn run along each other the other way round.
#[test]
fn directed_triangles_are_sewn_in_dimension_8(rt: HostRuntime) -> Result<(), Fail> {
    let alloc = rt.alloc();
    let mut links = loose::<Beta, 8>(&rt, alloc, 6);
    directed_triangle(&rt, alloc, &mut links, 1);
    directed_triangle(&rt, alloc, &mut links, 4);
    sew(&rt, alloc, &mut links, 8, 1, 4);
    assert_eq!(&rt; links.link(dart(&rt, 2), 8), Some(dart(&rt, 6)));
    assert_eq!(&rt; links.link(dart(&rt, 5), 8), Some(dart(&rt, 3)));
    match unsew_plan(alloc, &links, 8, dart(&rt, 5)) {
        Ok(edit) => links.apply(&edit),
        Err(_) => panic!(&rt; "not unsewn"),
    }
    assert_eq!(&rt; links.link(dart(&rt, 1), 8), None);
    assert_eq!(&rt; links.link(dart(&rt, 6), 8), None);
    assert_eq!(&rt; links.link(dart(&rt, 3), 1), Some(dart(&rt, 1)));
    Ok(())
}

// On the other side of a face link 1 leads where link 0 leads on this side.
#[test]
fn link_1_is_sewn_backwards_on_the_other_side(rt: HostRuntime) -> Result<(), Fail> {
    let alloc = rt.alloc();
    let mut links = loose::<Beta, 3>(&rt, alloc, 4);
    sew(&rt, alloc, &mut links, 3, 1, 4);
    sew(&rt, alloc, &mut links, 3, 2, 3);
    let seeds = [Triple {
        x: dart(&rt, 1),
        y: dart(&rt, 2),
        t: 1,
    }];
    match pair(alloc, &links, &seeds, &[3]) {
        Ok(pairs) => {
            assert_eq!(&rt;
                numbers(alloc, &pairs)?.as_slice(),
                [(1, 2, 1), (2, 1, 0), (3, 4, 1), (4, 3, 0)].as_slice()
            );
        }
        Err(_) => panic!(&rt; "not paired"),
    }
    sew(&rt, alloc, &mut links, 1, 1, 2);
    assert_eq!(&rt; links.link(dart(&rt, 3), 1), Some(dart(&rt, 4)));
    assert_eq!(&rt; links.link(dart(&rt, 4), 0), Some(dart(&rt, 3)));
    Ok(())
}

// A face may have one side alone, whose link 1 leads to itself.
#[test]
fn only_link_1_of_a_combinatorial_map_leads_to_the_same_dart(rt: HostRuntime) -> Result<(), Fail> {
    let alloc = rt.alloc();
    let mut links = loose::<Beta, 2>(&rt, alloc, 1);
    let one = dart(&rt, 1);
    assert!(&rt; !sewable(alloc, &links, 2, one, one)?);
    assert!(&rt; sewable(alloc, &links, 1, one, one)?);
    sew(&rt, alloc, &mut links, 1, 1, 1);
    assert_eq!(&rt; links.link(one, 0), Some(one));
    Ok(())
}
