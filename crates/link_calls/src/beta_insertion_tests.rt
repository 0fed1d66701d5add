ghost use Rattle.map_defs.specs.Kind.{beta};
ghost use Rattle.map_defs.specs.Rows.{links_of};
ghost use Rattle.map_defs.specs.Laws.{Laws};
ghost use Rattle.map_defs.specs.Edits.{Fits};

use crate::beta_maps::{check_rows, no_darts, sew_pairs};
use crate::maps::{check_refusal, dart, polygon, sew, unsew};
use beta_edit::{edge_plan, face_plan, vertex_plan};
use link_rows::{Edit, Links};
use map_kind::{Beta, Refusal, Refused};
use std::alloc::Global;
use std::process::Abort;

/// Two squares on the two sides of one face.
fn two_sides(rt: &impl Abort, alloc: Global, links: &mut Links<Beta, 3>)
    requires { Laws beta (links_of links.old.rows) }
    ensures { Laws beta (links_of links.new.rows) }
{
    polygon(rt, alloc, links, 4);
    polygon(rt, alloc, links, 4);
    sew(rt, alloc, links, 3, 1, 5);
}

fn apply<const DIM: usize>(rt: &impl Abort, links: &mut Links<Beta, DIM>, edit: &Edit)
    requires { Fits beta DIM links.old.rows edit.now }
{
    assert!(rt; links.reserve(edit.births).is_ok());
    links.apply(edit);
}

/// Inserts a vertex on the edge of a dart.
fn insert_vertex<const DIM: usize>(
    rt: &impl Abort,
    alloc: Global,
    links: &mut Links<Beta, DIM>,
    number: u32,
)
    requires { Laws beta (links_of links.old.rows) }
{
    let dart = dart(rt, links, number);
    match vertex_plan(alloc, links, dart) {
        Ok(edit) => apply(rt, links, &edit),
        Err(_) => panic!(rt; "no vertex"),
    }
}

/// Inserts an edge from the corner of a dart to that of another.
fn insert_edge<const DIM: usize>(
    rt: &impl Abort,
    alloc: Global,
    links: &mut Links<Beta, DIM>,
    one: u32,
    other: u32,
)
    requires { Laws beta (links_of links.old.rows) }
{
    let one = dart(rt, links, one);
    let other = dart(rt, links, other);
    match edge_plan(alloc, links, one, other) {
        Ok(edit) => apply(rt, links, &edit),
        Err(_) => panic!(rt; "no edge"),
    }
}

/// Compares why there is no edge from the corner of a dart to that of another.
fn check_no_edge<const DIM: usize>(
    rt: &impl Abort,
    alloc: Global,
    links: &Links<Beta, DIM>,
    one: u32,
    other: u32,
    wanted: Refusal,
)
    requires { Laws beta (links_of links.now.rows) }
{
    let one = dart(rt, links, one);
    let other = dart(rt, links, other);
    let planned = edge_plan(alloc, links, one, other);
    check_refusal(rt, planned, Refused::Line(wanted));
}

/// Inserts a face along three sides.
fn insert_face(rt: &impl Abort, alloc: Global, links: &mut Links<Beta, 3>, path: [u32; 3])
    requires { Laws beta (links_of links.old.rows) }
{
    let path = [
        dart(rt, links, path[0]),
        dart(rt, links, path[1]),
        dart(rt, links, path[2]),
    ];
    match face_plan(alloc, links, &path) {
        Ok(edit) => apply(rt, links, &edit),
        Err(_) => panic!(rt; "no face"),
    }
}

/// The links of darts 1, 2, 5, 6, 9 and 10 once a vertex parts both sides of the edge of dart 1.
#[rattlefmt::skip]
const PARTED_SIDES: [u32; 24] = [
    4, 9, 0, 10,
    9, 3, 0, 8,
    8, 10, 0, 9,
    10, 7, 0, 4,
    1, 2, 0, 5,
    5, 6, 0, 1,
];

/// Inserts a vertex on an edge of a face that has two sides.
fn check_vertex_on_both_sides(rt: &impl Abort, alloc: Global, links: &mut Links<Beta, 3>)
    requires { Laws beta (links_of links.old.rows) }
{
    two_sides(rt, alloc, links);
    insert_vertex(rt, alloc, links, 1);
    check_rows(rt, alloc, links, &[1, 2, 5, 6, 9, 10], &PARTED_SIDES);
}

#[test]
fn a_vertex_parts_an_edge_on_both_sides(rt: HostRuntime) {
    let mut links = no_darts::<3>(rt.alloc());
    check_vertex_on_both_sides(&rt, rt.alloc(), &mut links);
}

/// The links of darts 1 to 5 once a vertex parts the side of dart 1, which is the last of an open way.
#[rattlefmt::skip]
const PARTED_LAST_SIDE: [u32; 15] = [
    4, 5, 0,
    0, 3, 0,
    2, 4, 0,
    3, 1, 0,
    1, 0, 0,
];

/// Inserts a vertex on a side behind which link 1 is free.
fn check_vertex_on_an_open_way(rt: &impl Abort, alloc: Global, links: &mut Links<Beta, 2>)
    requires { Laws beta (links_of links.old.rows) }
{
    polygon(rt, alloc, links, 4);
    unsew(rt, alloc, links, 1, 1);
    insert_vertex(rt, alloc, links, 1);
    check_rows(rt, alloc, links, &[1, 2, 3, 4, 5], &PARTED_LAST_SIDE);
}

#[test]
fn a_vertex_parts_the_last_side_of_an_open_way(rt: HostRuntime) {
    let mut links = no_darts::<2>(rt.alloc());
    check_vertex_on_an_open_way(&rt, rt.alloc(), &mut links);
}

/// The links of darts 1 to 4 and 9 to 12 once an edge parts both sides of a face.
#[rattlefmt::skip]
const PARTED_FACE: [u32; 32] = [
    10, 2, 0, 5,
    1, 10, 0, 8,
    9, 4, 0, 7,
    3, 9, 0, 6,
    4, 3, 10, 12,
    2, 1, 9, 11,
    5, 8, 12, 10,
    7, 6, 11, 9,
];

/// Inserts an edge into a face that has two sides.
fn check_edge_on_both_sides(rt: &impl Abort, alloc: Global, links: &mut Links<Beta, 3>)
    requires { Laws beta (links_of links.old.rows) }
{
    two_sides(rt, alloc, links);
    check_no_edge(rt, alloc, links, 1, 5, Refusal::OtherCell);
    insert_edge(rt, alloc, links, 1, 3);
    check_rows(rt, alloc, links, &[1, 2, 3, 4, 9, 10, 11, 12], &PARTED_FACE);
}

#[test]
fn an_edge_parts_a_face_on_both_sides(rt: HostRuntime) {
    let mut links = no_darts::<3>(rt.alloc());
    check_edge_on_both_sides(&rt, rt.alloc(), &mut links);
}

/// The links of darts 1 to 6 once an edge parts an open way.
#[rattlefmt::skip]
const PARTED_WAY: [u32; 18] = [
    0, 5, 0,
    6, 3, 0,
    2, 6, 0,
    5, 0, 0,
    1, 4, 6,
    3, 2, 5,
];

/// Opens the way around a square between darts 4 and 1, and inserts an edge.
fn check_edge_on_an_open_way(rt: &impl Abort, alloc: Global, links: &mut Links<Beta, 2>)
    requires { Laws beta (links_of links.old.rows) }
{
    polygon(rt, alloc, links, 4);
    check_no_edge(rt, alloc, links, 1, 1, Refusal::SameCorner);
    unsew(rt, alloc, links, 1, 4);
    check_no_edge(rt, alloc, links, 1, 3, Refusal::Unpaired);
    insert_edge(rt, alloc, links, 2, 4);
    check_rows(rt, alloc, links, &[1, 2, 3, 4, 5, 6], &PARTED_WAY);
}

#[test]
fn an_edge_needs_two_ways_into_two_corners(rt: HostRuntime) {
    let mut links = no_darts::<2>(rt.alloc());
    check_edge_on_an_open_way(&rt, rt.alloc(), &mut links);
}

/// The links of darts 1, 2, 3 and 7 to 12 once a face parts a volume of two triangles.
#[rattlefmt::skip]
const PARTED_VOLUME: [u32; 36] = [
    3, 2, 7, 0,
    1, 3, 8, 0,
    2, 1, 9, 0,
    8, 9, 1, 10,
    9, 7, 2, 12,
    7, 8, 3, 11,
    11, 12, 4, 7,
    12, 10, 5, 9,
    10, 11, 6, 8,
];

/// Inserts a face along the sides that two triangles share.
fn check_face_in_a_volume(rt: &impl Abort, alloc: Global, links: &mut Links<Beta, 3>)
    requires { Laws beta (links_of links.old.rows) }
{
    polygon(rt, alloc, links, 3);
    polygon(rt, alloc, links, 3);
    sew_pairs(rt, alloc, links, 2, &[(1, 4), (2, 6), (3, 5)]);
    insert_face(rt, alloc, links, [1, 2, 3]);
    check_rows(
        rt,
        alloc,
        links,
        &[1, 2, 3, 7, 8, 9, 10, 11, 12],
        &PARTED_VOLUME,
    );
}

#[test]
fn a_face_parts_a_volume(rt: HostRuntime) {
    let mut links = no_darts::<3>(rt.alloc());
    check_face_in_a_volume(&rt, rt.alloc(), &mut links);
}
