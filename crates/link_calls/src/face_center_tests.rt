ghost use Rattle.map_defs.specs.Laws.{Laws};
ghost use Rattle.map_defs.specs.Rows.{links_of};
ghost use Rattle.map_defs.specs.Kind.{alpha, beta};

use crate::maps::{apply, check_refusal, check_rows, dart, polygon, sew, unsew};
use face_center::{alpha, beta};
use link_rows::Links;
use map_kind::{Alpha, Beta, Refusal, Refused};
use std::alloc::Global;
use std::process::Abort;
use std::test::Fail;

/// A triangle of a generalized map with a dangling edge at the corner of dart 1.
#[rattlefmt::skip]
const DANGLED_TRIANGLE_GENERALIZED: [u32; 30] = [
    2, 7, 0,
    1, 3, 0,
    4, 2, 0,
    3, 5, 0,
    6, 4, 0,
    5, 8, 0,
    9, 1, 8,
    10, 6, 7,
    7, 10, 10,
    8, 9, 9,
];

/// A triangle of a generalized map with a vertex in the middle.
#[rattlefmt::skip]
const CENTRED_TRIANGLE_GENERALIZED: [u32; 54] = [
    2, 7, 0,
    1, 8, 0,
    4, 9, 0,
    3, 10, 0,
    6, 11, 0,
    5, 12, 0,
    13, 1, 12,
    14, 2, 9,
    15, 3, 8,
    16, 4, 11,
    17, 5, 10,
    18, 6, 7,
    7, 14, 18,
    8, 13, 15,
    9, 16, 14,
    10, 15, 17,
    11, 18, 16,
    12, 17, 13,
];

/// A square of a generalized map with a vertex in the middle.
#[rattlefmt::skip]
const CENTRED_SQUARE_GENERALIZED: [u32; 72] = [
    2, 9, 0,
    1, 10, 0,
    4, 11, 0,
    3, 12, 0,
    6, 13, 0,
    5, 14, 0,
    8, 15, 0,
    7, 16, 0,
    17, 1, 16,
    18, 2, 11,
    19, 3, 10,
    20, 4, 13,
    21, 5, 12,
    22, 6, 15,
    23, 7, 14,
    24, 8, 9,
    9, 18, 24,
    10, 17, 19,
    11, 20, 18,
    12, 19, 21,
    13, 22, 20,
    14, 21, 23,
    15, 24, 22,
    16, 23, 17,
];

/// Two triangles that are the two sides of one face of a generalized map, with a dangling edge at the corner of dart 1.
#[rattlefmt::skip]
const DANGLED_SIDES_GENERALIZED: [u32; 80] = [
    2, 13, 0, 7,
    1, 3, 0, 8,
    4, 2, 0, 9,
    3, 5, 0, 10,
    6, 4, 0, 11,
    5, 14, 0, 12,
    8, 15, 0, 1,
    7, 9, 0, 2,
    10, 8, 0, 3,
    9, 11, 0, 4,
    12, 10, 0, 5,
    11, 16, 0, 6,
    17, 1, 14, 15,
    18, 6, 13, 16,
    19, 7, 16, 13,
    20, 12, 15, 14,
    13, 18, 18, 19,
    14, 17, 17, 20,
    15, 20, 20, 17,
    16, 19, 19, 18,
];

/// Two triangles that are the two sides of one face of a generalized map, with a vertex in the middle.
#[rattlefmt::skip]
const CENTRED_SIDES_GENERALIZED: [u32; 144] = [
    2, 13, 0, 7,
    1, 14, 0, 8,
    4, 15, 0, 9,
    3, 16, 0, 10,
    6, 17, 0, 11,
    5, 18, 0, 12,
    8, 19, 0, 1,
    7, 20, 0, 2,
    10, 21, 0, 3,
    9, 22, 0, 4,
    12, 23, 0, 5,
    11, 24, 0, 6,
    25, 1, 18, 19,
    26, 2, 15, 20,
    27, 3, 14, 21,
    28, 4, 17, 22,
    29, 5, 16, 23,
    30, 6, 13, 24,
    31, 7, 24, 13,
    32, 8, 21, 14,
    33, 9, 20, 15,
    34, 10, 23, 16,
    35, 11, 22, 17,
    36, 12, 19, 18,
    13, 26, 30, 31,
    14, 25, 27, 32,
    15, 28, 26, 33,
    16, 27, 29, 34,
    17, 30, 28, 35,
    18, 29, 25, 36,
    19, 32, 36, 25,
    20, 31, 33, 26,
    21, 34, 32, 27,
    22, 33, 35, 28,
    23, 36, 34, 29,
    24, 35, 31, 30,
];

/// A triangle of a combinatorial map with a dangling edge at the corner of dart 1.
#[rattlefmt::skip]
const DANGLED_TRIANGLE_COMBINATORIAL: [u32; 15] = [
    5, 2, 0,
    1, 3, 0,
    2, 4, 0,
    3, 5, 5,
    4, 1, 4,
];

/// A triangle of a combinatorial map with a vertex in the middle.
#[rattlefmt::skip]
const CENTRED_TRIANGLE_COMBINATORIAL: [u32; 27] = [
    7, 4, 0,
    8, 5, 0,
    9, 6, 0,
    1, 7, 8,
    2, 8, 9,
    3, 9, 7,
    4, 1, 6,
    5, 2, 4,
    6, 3, 5,
];

/// A square of a combinatorial map with a vertex in the middle.
#[rattlefmt::skip]
const CENTRED_SQUARE_COMBINATORIAL: [u32; 36] = [
    9, 5, 0,
    10, 6, 0,
    11, 7, 0,
    12, 8, 0,
    1, 9, 10,
    2, 10, 11,
    3, 11, 12,
    4, 12, 9,
    5, 1, 8,
    6, 2, 5,
    7, 3, 6,
    8, 4, 7,
];

/// Two triangles that are the two sides of one face of a combinatorial map, with a dangling edge at the corner of dart 1.
#[rattlefmt::skip]
const DANGLED_SIDES_COMBINATORIAL: [u32; 40] = [
    9, 2, 0, 4,
    1, 3, 0, 6,
    2, 7, 0, 5,
    6, 8, 0, 1,
    10, 6, 0, 3,
    5, 4, 0, 2,
    3, 9, 9, 10,
    4, 10, 10, 9,
    7, 1, 7, 8,
    8, 5, 8, 7,
];

/// Two triangles that are the two sides of one face of a combinatorial map, with a vertex in the middle.
#[rattlefmt::skip]
const CENTRED_SIDES_COMBINATORIAL: [u32; 72] = [
    13, 7, 0, 4,
    14, 8, 0, 6,
    15, 9, 0, 5,
    16, 10, 0, 1,
    17, 11, 0, 3,
    18, 12, 0, 2,
    1, 13, 14, 16,
    2, 14, 15, 18,
    3, 15, 13, 17,
    4, 16, 17, 13,
    5, 17, 18, 15,
    6, 18, 16, 14,
    7, 1, 9, 10,
    8, 2, 7, 12,
    9, 3, 8, 11,
    10, 4, 12, 7,
    11, 5, 10, 9,
    12, 6, 11, 8,
];

/// Hangs a dangling edge at the corner of a dart of a generalized map.
fn dangle_alpha<const DIM: usize>(
    rt: &impl Abort,
    alloc: Global,
    links: &mut Links<Alpha, DIM>,
    number: u32,
)
    requires { Laws alpha (links_of links.old.rows) }
{
    let dart = dart(rt, links, number);
    match alpha::dangle_plan(alloc, links, dart) {
        Ok(edit) => apply(rt, links, &edit),
        Err(_) => panic!(rt; "no edge"),
    }
}

/// Makes a vertex in the middle of the face of a dart of a generalized map.
fn center_alpha<const DIM: usize>(
    rt: &impl Abort,
    alloc: Global,
    links: &mut Links<Alpha, DIM>,
    number: u32,
)
    requires { Laws alpha (links_of links.old.rows) }
{
    let dart = dart(rt, links, number);
    match alpha::center_plan(alloc, links, dart) {
        Ok(edit) => apply(rt, links, &edit),
        Err(_) => panic!(rt; "no centre"),
    }
}

/// Hangs a dangling edge at the corner of a dart of a combinatorial map.
fn dangle_beta<const DIM: usize>(
    rt: &impl Abort,
    alloc: Global,
    links: &mut Links<Beta, DIM>,
    number: u32,
)
    requires { Laws beta (links_of links.old.rows) }
{
    let dart = dart(rt, links, number);
    match beta::dangle_plan(alloc, links, dart) {
        Ok(edit) => apply(rt, links, &edit),
        Err(_) => panic!(rt; "no edge"),
    }
}

/// Makes a vertex in the middle of the face of a dart of a combinatorial map.
fn center_beta<const DIM: usize>(
    rt: &impl Abort,
    alloc: Global,
    links: &mut Links<Beta, DIM>,
    number: u32,
)
    requires { Laws beta (links_of links.old.rows) }
{
    let dart = dart(rt, links, number);
    match beta::center_plan(alloc, links, dart) {
        Ok(edit) => apply(rt, links, &edit),
        Err(_) => panic!(rt; "no centre"),
    }
}

#[test]
fn edges_are_hung_in_a_generalized_triangle(rt: HostRuntime) -> Result<(), Fail> {
    let alloc = rt.alloc();
    let mut links = Links::<Alpha, 2>::new(alloc);
    polygon(&rt, alloc, &mut links, 3);
    dangle_alpha(&rt, alloc, &mut links, 1);
    check_rows(&rt, alloc, &links, 10, &DANGLED_TRIANGLE_GENERALIZED);
    let mut links = Links::<Alpha, 2>::new(alloc);
    polygon(&rt, alloc, &mut links, 3);
    center_alpha(&rt, alloc, &mut links, 1);
    check_rows(&rt, alloc, &links, 18, &CENTRED_TRIANGLE_GENERALIZED);
    Ok(())
}

#[test]
fn a_generalized_square_gets_a_middle(rt: HostRuntime) -> Result<(), Fail> {
    let alloc = rt.alloc();
    let mut links = Links::<Alpha, 2>::new(alloc);
    polygon(&rt, alloc, &mut links, 4);
    center_alpha(&rt, alloc, &mut links, 3);
    check_rows(&rt, alloc, &links, 24, &CENTRED_SQUARE_GENERALIZED);
    Ok(())
}

#[test]
fn edges_are_hung_on_both_sides_of_a_generalized_face(rt: HostRuntime) -> Result<(), Fail> {
    let alloc = rt.alloc();
    let mut links = Links::<Alpha, 3>::new(alloc);
    polygon(&rt, alloc, &mut links, 3);
    polygon(&rt, alloc, &mut links, 3);
    sew(&rt, alloc, &mut links, 3, 1, 7);
    dangle_alpha(&rt, alloc, &mut links, 1);
    check_rows(&rt, alloc, &links, 20, &DANGLED_SIDES_GENERALIZED);
    let mut links = Links::<Alpha, 3>::new(alloc);
    polygon(&rt, alloc, &mut links, 3);
    polygon(&rt, alloc, &mut links, 3);
    sew(&rt, alloc, &mut links, 3, 1, 7);
    center_alpha(&rt, alloc, &mut links, 1);
    check_rows(&rt, alloc, &links, 36, &CENTRED_SIDES_GENERALIZED);
    Ok(())
}

#[test]
fn an_open_generalized_face_has_no_middle(rt: HostRuntime) -> Result<(), Fail> {
    let alloc = rt.alloc();
    let mut links = Links::<Alpha, 2>::new(alloc);
    polygon(&rt, alloc, &mut links, 3);
    unsew(&rt, alloc, &mut links, 1, 2);
    let planned = alpha::center_plan(alloc, &links, dart(&rt, &links, 5));
    check_refusal(&rt, planned, Refused::Line(Refusal::NotClosed));
    Ok(())
}

#[test]
fn edges_are_hung_in_a_combinatorial_triangle(rt: HostRuntime) -> Result<(), Fail> {
    let alloc = rt.alloc();
    let mut links = Links::<Beta, 2>::new(alloc);
    polygon(&rt, alloc, &mut links, 3);
    dangle_beta(&rt, alloc, &mut links, 1);
    check_rows(&rt, alloc, &links, 5, &DANGLED_TRIANGLE_COMBINATORIAL);
    let mut links = Links::<Beta, 2>::new(alloc);
    polygon(&rt, alloc, &mut links, 3);
    center_beta(&rt, alloc, &mut links, 1);
    check_rows(&rt, alloc, &links, 9, &CENTRED_TRIANGLE_COMBINATORIAL);
    Ok(())
}

#[test]
fn a_combinatorial_square_gets_a_middle(rt: HostRuntime) -> Result<(), Fail> {
    let alloc = rt.alloc();
    let mut links = Links::<Beta, 2>::new(alloc);
    polygon(&rt, alloc, &mut links, 4);
    center_beta(&rt, alloc, &mut links, 3);
    check_rows(&rt, alloc, &links, 12, &CENTRED_SQUARE_COMBINATORIAL);
    Ok(())
}

#[test]
fn edges_are_hung_on_both_sides_of_a_combinatorial_face(rt: HostRuntime) -> Result<(), Fail> {
    let alloc = rt.alloc();
    let mut links = Links::<Beta, 3>::new(alloc);
    polygon(&rt, alloc, &mut links, 3);
    polygon(&rt, alloc, &mut links, 3);
    sew(&rt, alloc, &mut links, 3, 1, 4);
    dangle_beta(&rt, alloc, &mut links, 1);
    check_rows(&rt, alloc, &links, 10, &DANGLED_SIDES_COMBINATORIAL);
    let mut links = Links::<Beta, 3>::new(alloc);
    polygon(&rt, alloc, &mut links, 3);
    polygon(&rt, alloc, &mut links, 3);
    sew(&rt, alloc, &mut links, 3, 1, 4);
    center_beta(&rt, alloc, &mut links, 1);
    check_rows(&rt, alloc, &links, 18, &CENTRED_SIDES_COMBINATORIAL);
    Ok(())
}

#[test]
fn an_open_combinatorial_face_has_no_middle(rt: HostRuntime) -> Result<(), Fail> {
    let alloc = rt.alloc();
    let mut links = Links::<Beta, 2>::new(alloc);
    polygon(&rt, alloc, &mut links, 3);
    unsew(&rt, alloc, &mut links, 1, 2);
    let planned = beta::center_plan(alloc, &links, dart(&rt, &links, 1));
    check_refusal(&rt, planned, Refused::Line(Refusal::NotClosed));
    let planned = beta::dangle_plan(alloc, &links, dart(&rt, &links, 3));
    check_refusal(&rt, planned, Refused::Line(Refusal::Unpaired));
    Ok(())
}
