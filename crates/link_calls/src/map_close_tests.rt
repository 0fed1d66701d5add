ghost use Rattle.map_defs.specs.Laws.{Laws};
ghost use Rattle.map_defs.specs.Rows.{links_of};
ghost use Rattle.map_defs.specs.Kind.{alpha, beta};
ghost use Rattle.std.specs.Prelude.{◌≤◌};

use crate::maps::{apply, check_rows, polygon, sew, unsew};
use link_rows::Links;
use map_close::{alpha, beta};
use map_kind::{Alpha, Beta};
use std::alloc::Global;
use std::process::Abort;
use std::test::Fail;

/// Two triangles of a generalized map with a common edge, closed at link 2.
#[rattlefmt::skip]
const CLOSED_PAIR_GENERALIZED: [u32; 60] = [
    2, 6, 7,
    1, 3, 8,
    4, 2, 13,
    3, 5, 14,
    6, 4, 15,
    5, 1, 16,
    8, 12, 1,
    7, 9, 2,
    10, 8, 17,
    9, 11, 18,
    12, 10, 19,
    11, 7, 20,
    14, 17, 3,
    13, 15, 4,
    16, 14, 5,
    15, 20, 6,
    18, 13, 9,
    17, 19, 10,
    20, 18, 11,
    19, 16, 12,
];

/// A triangle of a generalized map that is open at a corner, closed at link 2.
#[rattlefmt::skip]
const CLOSED_PATH_GENERALIZED: [u32; 36] = [
    2, 6, 7,
    1, 0, 8,
    4, 0, 9,
    3, 5, 10,
    6, 4, 11,
    5, 1, 12,
    8, 12, 1,
    7, 0, 2,
    10, 0, 3,
    9, 11, 4,
    12, 10, 5,
    11, 7, 6,
];

/// A triangle of a generalized map that is open in a side and at a corner, closed at link 0.
#[rattlefmt::skip]
const CLOSED_AT_LINK_ZERO: [u32; 24] = [
    7, 6, 0,
    8, 0, 0,
    4, 0, 0,
    3, 5, 0,
    6, 4, 0,
    5, 1, 0,
    1, 0, 0,
    2, 0, 0,
];

/// The same, closed at link 1 thereafter.
#[rattlefmt::skip]
const CLOSED_AT_LINK_ONE: [u32; 36] = [
    7, 6, 0,
    8, 9, 0,
    4, 10, 0,
    3, 5, 0,
    6, 4, 0,
    5, 1, 0,
    1, 11, 0,
    2, 12, 0,
    12, 2, 0,
    11, 3, 0,
    10, 7, 0,
    9, 8, 0,
];

/// A square of a combinatorial map, closed at link 2.
#[rattlefmt::skip]
const CLOSED_SQUARE_COMBINATORIAL: [u32; 24] = [
    4, 2, 5,
    1, 3, 6,
    2, 4, 7,
    3, 1, 8,
    6, 8, 1,
    7, 5, 2,
    8, 6, 3,
    5, 7, 4,
];

/// Two triangles of a combinatorial map with a common edge at whose one end a face is open, closed at link 2.
#[rattlefmt::skip]
const CLOSED_PATH_COMBINATORIAL: [u32; 30] = [
    3, 2, 4,
    1, 0, 7,
    0, 1, 8,
    6, 5, 1,
    4, 6, 9,
    5, 4, 10,
    0, 10, 2,
    9, 0, 3,
    10, 8, 5,
    7, 9, 6,
];

/// A tetrahedron of a combinatorial map, closed at link 3.
#[rattlefmt::skip]
const CLOSED_TETRAHEDRON: [u32; 96] = [
    3, 2, 4, 13,
    1, 3, 7, 14,
    2, 1, 10, 15,
    6, 5, 1, 16,
    4, 6, 12, 17,
    5, 4, 8, 18,
    9, 8, 2, 19,
    7, 9, 6, 20,
    8, 7, 11, 21,
    12, 11, 3, 22,
    10, 12, 9, 23,
    11, 10, 5, 24,
    14, 15, 16, 1,
    15, 13, 19, 2,
    13, 14, 22, 3,
    17, 18, 13, 4,
    18, 16, 24, 5,
    16, 17, 20, 6,
    20, 21, 14, 7,
    21, 19, 18, 8,
    19, 20, 23, 9,
    23, 24, 15, 10,
    24, 22, 21, 11,
    22, 23, 17, 12,
];

/// Closes a generalized map at a link.
fn close_alpha<const DIM: usize>(
    rt: &impl Abort,
    alloc: Global,
    links: &mut Links<Alpha, DIM>,
    link: usize,
)
    requires link { link ≤ DIM }
    requires laws { Laws alpha (links_of links.old.rows) }
    ensures { Laws alpha (links_of links.new.rows) }
{
    match alpha::close_plan(alloc, links, link) {
        Ok(edit) => apply(rt, links, &edit),
        Err(_) => panic!(rt; "no memory"),
    }
}

/// Closes a combinatorial map at a link.
fn close_beta<const DIM: usize>(
    rt: &impl Abort,
    alloc: Global,
    links: &mut Links<Beta, DIM>,
    link: usize,
)
    requires low { 2 ≤ link }
    requires link { link ≤ DIM }
    requires laws { Laws beta (links_of links.old.rows) }
    ensures { Laws beta (links_of links.new.rows) }
{
    match beta::close_plan(alloc, links, link) {
        Ok(edit) => apply(rt, links, &edit),
        Err(_) => panic!(rt; "no memory"),
    }
}

#[test]
fn generalized_boundaries_are_closed(rt: HostRuntime) -> Result<(), Fail> {
    let alloc = rt.alloc();
    let mut links = Links::<Alpha, 2>::new(alloc);
    polygon(&rt, alloc, &mut links, 3);
    polygon(&rt, alloc, &mut links, 3);
    sew(&rt, alloc, &mut links, 2, 1, 7);
    close_alpha(&rt, alloc, &mut links, 2);
    check_rows(&rt, alloc, &links, 20, &CLOSED_PAIR_GENERALIZED);
    let mut links = Links::<Alpha, 2>::new(alloc);
    polygon(&rt, alloc, &mut links, 3);
    unsew(&rt, alloc, &mut links, 1, 2);
    close_alpha(&rt, alloc, &mut links, 2);
    check_rows(&rt, alloc, &links, 12, &CLOSED_PATH_GENERALIZED);
    Ok(())
}

#[test]
fn a_generalized_map_is_closed_link_by_link(rt: HostRuntime) -> Result<(), Fail> {
    let alloc = rt.alloc();
    let mut links = Links::<Alpha, 2>::new(alloc);
    polygon(&rt, alloc, &mut links, 3);
    unsew(&rt, alloc, &mut links, 0, 1);
    unsew(&rt, alloc, &mut links, 1, 3);
    close_alpha(&rt, alloc, &mut links, 0);
    check_rows(&rt, alloc, &links, 8, &CLOSED_AT_LINK_ZERO);
    close_alpha(&rt, alloc, &mut links, 1);
    check_rows(&rt, alloc, &links, 12, &CLOSED_AT_LINK_ONE);
    match alpha::close_plan(alloc, &links, 1) {
        Ok(edit) => assert_eq!(&rt; edit.births, 0),
        Err(_) => panic!(&rt; "no memory"),
    }
    Ok(())
}

#[test]
fn combinatorial_boundaries_are_closed(rt: HostRuntime) -> Result<(), Fail> {
    let alloc = rt.alloc();
    let mut links = Links::<Beta, 2>::new(alloc);
    polygon(&rt, alloc, &mut links, 4);
    close_beta(&rt, alloc, &mut links, 2);
    check_rows(&rt, alloc, &links, 8, &CLOSED_SQUARE_COMBINATORIAL);
    let mut links = Links::<Beta, 2>::new(alloc);
    polygon(&rt, alloc, &mut links, 3);
    polygon(&rt, alloc, &mut links, 3);
    sew(&rt, alloc, &mut links, 2, 1, 4);
    unsew(&rt, alloc, &mut links, 1, 2);
    close_beta(&rt, alloc, &mut links, 2);
    check_rows(&rt, alloc, &links, 10, &CLOSED_PATH_COMBINATORIAL);
    Ok(())
}

#[test]
fn a_combinatorial_volume_is_closed(rt: HostRuntime) -> Result<(), Fail> {
    let alloc = rt.alloc();
    let mut links = Links::<Beta, 3>::new(alloc);
    polygon(&rt, alloc, &mut links, 3);
    polygon(&rt, alloc, &mut links, 3);
    polygon(&rt, alloc, &mut links, 3);
    polygon(&rt, alloc, &mut links, 3);
    sew(&rt, alloc, &mut links, 2, 1, 4);
    sew(&rt, alloc, &mut links, 2, 2, 7);
    sew(&rt, alloc, &mut links, 2, 3, 10);
    sew(&rt, alloc, &mut links, 2, 5, 12);
    sew(&rt, alloc, &mut links, 2, 6, 8);
    sew(&rt, alloc, &mut links, 2, 9, 11);
    close_beta(&rt, alloc, &mut links, 3);
    check_rows(&rt, alloc, &links, 24, &CLOSED_TETRAHEDRON);
    Ok(())
}
