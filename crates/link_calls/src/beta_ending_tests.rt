ghost use Rattle.std.specs.Prelude.{◌≤◌};
ghost use Rattle.map_defs.specs.Kind.{beta};
ghost use Rattle.map_defs.specs.Rows.{links_of};
ghost use Rattle.map_defs.specs.Laws.{Laws};

use crate::beta_maps::{check_rows, no_darts, sew_pairs};
use crate::maps::{check_refusal, dart, polygon, sew};
use beta_edit::{contract_plan, contractible, removable, remove_plan};
use link_rows::Links;
use map_kind::{Beta, Refusal, Refused};
use std::alloc::Global;
use std::process::Abort;

/// Removes the cell of a dart.
fn remove<const DIM: usize>(
    rt: &impl Abort,
    alloc: Global,
    links: &mut Links<Beta, DIM>,
    dim: usize,
    number: u32,
)
    requires dim { dim ≤ DIM }
    requires laws { Laws beta (links_of links.old.rows) }
    ensures { Laws beta (links_of links.new.rows) }
{
    let dart = dart(rt, links, number);
    match remove_plan(alloc, links, dim, dart) {
        Ok(edit) => links.apply(&edit),
        Err(_) => panic!(rt; "not removed"),
    }
}

/// Contracts the cell of a dart.
fn contract<const DIM: usize>(
    rt: &impl Abort,
    alloc: Global,
    links: &mut Links<Beta, DIM>,
    dim: usize,
    number: u32,
)
    requires dim { dim ≤ DIM }
    requires laws { Laws beta (links_of links.old.rows) }
    ensures { Laws beta (links_of links.new.rows) }
{
    let dart = dart(rt, links, number);
    match contract_plan(alloc, links, dim, dart) {
        Ok(edit) => links.apply(&edit),
        Err(_) => panic!(rt; "not contracted"),
    }
}

/// Removes a vertex of a square.
fn check_triangle_of_a_square(rt: &impl Abort, alloc: Global, links: &mut Links<Beta, 2>)
    requires { Laws beta (links_of links.old.rows) }
{
    polygon(rt, alloc, links, 4);
    remove(rt, alloc, links, 0, 2);
    assert_eq!(rt; links.live_count(), 3);
    check_rows(rt, alloc, links, &[1, 3, 4], &[4, 3, 0, 1, 4, 0, 3, 1, 0]);
}

#[test]
fn a_square_without_a_vertex_is_a_triangle(rt: HostRuntime) {
    let mut links = no_darts::<2>(rt.alloc());
    check_triangle_of_a_square(&rt, rt.alloc(), &mut links);
}

/// The links of darts 2, 3, 4 and 6 once a vertex is removed on both sides of a triangle.
#[rattlefmt::skip]
const TWO_SIDES: [u32; 16] = [
    3, 3, 0, 6,
    2, 2, 0, 4,
    6, 6, 0, 3,
    4, 4, 0, 2,
];

/// Removes a vertex of a face that has two sides.
fn check_vertex_on_both_sides(rt: &impl Abort, alloc: Global, links: &mut Links<Beta, 3>)
    requires { Laws beta (links_of links.old.rows) }
{
    polygon(rt, alloc, links, 3);
    polygon(rt, alloc, links, 3);
    sew(rt, alloc, links, 3, 1, 4);
    remove(rt, alloc, links, 0, 1);
    check_rows(rt, alloc, links, &[2, 3, 4, 6], &TWO_SIDES);
}

#[test]
fn a_vertex_is_removed_on_both_sides_of_a_face(rt: HostRuntime) {
    let mut links = no_darts::<3>(rt.alloc());
    check_vertex_on_both_sides(&rt, rt.alloc(), &mut links);
}

/// Compares whether the vertex of dart 2 can be removed.
fn check_removable(rt: &impl Abort, alloc: Global, links: &Links<Beta, 2>, wanted: bool)
    requires { Laws beta (links_of links.now.rows) }
{
    let second = dart(rt, links, 2);
    assert_eq!(rt; removable(alloc, links, 0, second), Ok(wanted));
}

/// Compares why the vertex of dart 2 is not removed.
fn check_not_removed(rt: &impl Abort, alloc: Global, links: &Links<Beta, 2>, wanted: Refusal)
    requires { Laws beta (links_of links.now.rows) }
{
    let second = dart(rt, links, 2);
    let planned = remove_plan(alloc, links, 0, second);
    check_refusal(rt, planned, Refused::Line(wanted));
}

/// Removes a vertex of a triangle, and joins the two sides that are left by link 2.
fn check_side_to_itself(rt: &impl Abort, alloc: Global, links: &mut Links<Beta, 2>)
    requires { Laws beta (links_of links.old.rows) }
{
    polygon(rt, alloc, links, 3);
    remove(rt, alloc, links, 0, 1);
    check_removable(rt, alloc, links, true);
    sew(rt, alloc, links, 2, 2, 3);
    check_removable(rt, alloc, links, false);
    check_not_removed(rt, alloc, links, Refusal::NotRemovable);
}

// A face of two sides that are joined by link 2: without the vertex, the side that is left would be joined to itself.
#[test]
fn a_side_is_not_joined_to_itself(rt: HostRuntime) {
    let mut links = no_darts::<2>(rt.alloc());
    check_side_to_itself(&rt, rt.alloc(), &mut links);
}

/// The links of darts 2, 3, 5 and 6 once the edge between two triangles is removed.
#[rattlefmt::skip]
const JOINED_FACES: [u32; 12] = [
    6, 3, 0,
    2, 5, 0,
    3, 6, 0,
    5, 2, 0,
];

/// Removes the edge between two triangles.
fn check_joined_faces(rt: &impl Abort, alloc: Global, links: &mut Links<Beta, 2>)
    requires { Laws beta (links_of links.old.rows) }
{
    polygon(rt, alloc, links, 3);
    polygon(rt, alloc, links, 3);
    sew(rt, alloc, links, 2, 1, 4);
    remove(rt, alloc, links, 1, 1);
    check_rows(rt, alloc, links, &[2, 3, 5, 6], &JOINED_FACES);
}

#[test]
fn a_removed_edge_joins_two_faces(rt: HostRuntime) {
    let mut links = no_darts::<2>(rt.alloc());
    check_joined_faces(&rt, rt.alloc(), &mut links);
}

/// A triangle with one triangle sewn to each of two of its sides.
fn triangles(rt: &impl Abort, alloc: Global, links: &mut Links<Beta, 2>)
    requires { Laws beta (links_of links.old.rows) }
    ensures { Laws beta (links_of links.new.rows) }
{
    polygon(rt, alloc, links, 3);
    polygon(rt, alloc, links, 3);
    polygon(rt, alloc, links, 3);
    sew_pairs(rt, alloc, links, 2, &[(1, 4), (2, 7)]);
}

/// Compares that the vertex of dart 1 cannot be contracted, nor its face.
fn check_not_contracted(rt: &impl Abort, alloc: Global, links: &Links<Beta, 2>)
    requires { Laws beta (links_of links.now.rows) }
{
    let first = dart(rt, links, 1);
    assert_eq!(rt; contractible(alloc, links, 0, first), Ok(false));
    let planned = contract_plan(alloc, links, 2, first);
    check_refusal(rt, planned, Refused::Line(Refusal::NotContractible));
}

/// Contracts an edge of the middle triangle, and then the triangle.
fn check_contracted_edge_and_face(rt: &impl Abort, alloc: Global, links: &mut Links<Beta, 2>)
    requires { Laws beta (links_of links.old.rows) }
{
    triangles(rt, alloc, links);
    check_not_contracted(rt, alloc, links);
    contract(rt, alloc, links, 1, 3);
    check_rows(rt, alloc, links, &[1, 2], &[2, 2, 4, 1, 1, 7]);
    contract(rt, alloc, links, 2, 1);
    assert_eq!(rt; links.live_count(), 6);
    check_rows(rt, alloc, links, &[4, 7], &[6, 5, 7, 9, 8, 4]);
}

#[test]
fn an_edge_and_then_a_face_are_contracted(rt: HostRuntime) {
    let mut links = no_darts::<2>(rt.alloc());
    check_contracted_edge_and_face(&rt, rt.alloc(), &mut links);
}

/// The links 2 of two volumes of two triangles each.
const VOLUMES: [(u32, u32); 6] = [(1, 4), (2, 6), (3, 5), (7, 10), (8, 12), (9, 11)];

/// Two volumes of two triangles each, which share a face.
fn volumes(rt: &impl Abort, alloc: Global, links: &mut Links<Beta, 3>)
    requires { Laws beta (links_of links.old.rows) }
    ensures { Laws beta (links_of links.new.rows) }
{
    polygon(rt, alloc, links, 3);
    polygon(rt, alloc, links, 3);
    polygon(rt, alloc, links, 3);
    polygon(rt, alloc, links, 3);
    sew_pairs(rt, alloc, links, 2, &VOLUMES);
    sew(rt, alloc, links, 3, 4, 7);
}

/// The links of darts 1, 2, 3, 10, 11 and 12 once the face between two volumes is removed.
#[rattlefmt::skip]
const JOINED_VOLUMES: [u32; 24] = [
    3, 2, 10, 0,
    1, 3, 12, 0,
    2, 1, 11, 0,
    12, 11, 1, 0,
    10, 12, 3, 0,
    11, 10, 2, 0,
];

/// Removes the face between two volumes.
fn check_joined_volumes(rt: &impl Abort, alloc: Global, links: &mut Links<Beta, 3>)
    requires { Laws beta (links_of links.old.rows) }
{
    volumes(rt, alloc, links);
    remove(rt, alloc, links, 2, 4);
    check_rows(rt, alloc, links, &[1, 2, 3, 10, 11, 12], &JOINED_VOLUMES);
}

#[test]
fn a_removed_face_joins_two_volumes(rt: HostRuntime) {
    let mut links = no_darts::<3>(rt.alloc());
    check_joined_volumes(&rt, rt.alloc(), &mut links);
}

/// The links of darts 7, 8 and 9 once the other volume is contracted.
#[rattlefmt::skip]
const CONTRACTED_VOLUME: [u32; 12] = [
    9, 8, 10, 0,
    7, 9, 12, 0,
    8, 7, 11, 0,
];

/// Contracts one of two volumes.
fn check_contracted_volume(rt: &impl Abort, alloc: Global, links: &mut Links<Beta, 3>)
    requires { Laws beta (links_of links.old.rows) }
{
    volumes(rt, alloc, links);
    contract(rt, alloc, links, 3, 1);
    check_rows(rt, alloc, links, &[7, 8, 9], &CONTRACTED_VOLUME);
}

#[test]
fn a_volume_is_contracted(rt: HostRuntime) {
    let mut links = no_darts::<3>(rt.alloc());
    check_contracted_volume(&rt, rt.alloc(), &mut links);
}
