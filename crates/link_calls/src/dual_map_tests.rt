ghost use Rattle.std.specs.Prelude.{◌≡◌, ◌≤◌};
ghost use Rattle.map_defs.specs.Kind.{alpha, beta};
ghost use Rattle.map_defs.specs.Rows.{links_of};
ghost use Rattle.map_defs.specs.Laws.{Laws};

use dual_map::{combinatorial, dual_plan, dualable, generalized};
use link_rows::{Links, PlainEdit, polygon_edit};
use map_kind::{Alpha, Beta, Dart, Kind, Refusal, Refused};
use sewing::sew_plan;
use std::alloc::Global;
use std::process::Abort;
use std::test::Fail;

/// Makes a polygon of so many sides.
fn polygon<K: Kind, const DIM: usize>(
    rt: &impl Abort,
    alloc: Global,
    links: &mut Links<K, DIM>,
    sides: u32,
)
    requires low { 3 ≤ sides }
    requires high { sides ≤ 65536 }
    requires laws { Laws K.kind (links_of links.old.rows) }
    ensures { Laws K.kind (links_of links.new.rows) }
{
    assert!(rt; K::per_side() <= 2);
    match links.reserve(2 * sides) {
        Ok(()) => {}
        Err(_) => panic!(rt; "no room"),
    }
    match polygon_edit(alloc, links, sides) {
        Ok(edit) => links.apply(&edit),
        Err(_) => panic!(rt; "no memory"),
    }
}

/// Sews two darts that can be sewn.
fn sew<K: Kind, const DIM: usize>(
    rt: &impl Abort,
    alloc: Global,
    links: &mut Links<K, DIM>,
    link: usize,
    one: u32,
    other: u32,
)
    requires link { link ≤ DIM }
    requires laws { Laws K.kind (links_of links.old.rows) }
    ensures { Laws K.kind (links_of links.new.rows) }
{
    let one = dart(rt, one);
    let other = dart(rt, other);
    assert!(rt; links.is_live(one));
    assert!(rt; links.is_live(other));
    match sew_plan(alloc, links, link, one, other) {
        Ok(edit) => links.apply(&edit),
        Err(_) => panic!(rt; "not sewn"),
    }
}

/// Makes a cube: six squares of eight darts each, sewn along its twelve edges.
fn cube(rt: &impl Abort, alloc: Global, links: &mut Links<Alpha, 2>)
    requires { Laws alpha (links_of links.old.rows) }
    ensures { Laws alpha (links_of links.new.rows) }
{
    for _square in 0..6 {
        polygon(rt, alloc, links, 4);
    }
    sew(rt, alloc, links, 2, 1, 42);
    sew(rt, alloc, links, 2, 3, 34);
    sew(rt, alloc, links, 2, 5, 26);
    sew(rt, alloc, links, 2, 7, 18);
    sew(rt, alloc, links, 2, 9, 22);
    sew(rt, alloc, links, 2, 11, 30);
    sew(rt, alloc, links, 2, 13, 38);
    sew(rt, alloc, links, 2, 15, 46);
    sew(rt, alloc, links, 2, 19, 32);
    sew(rt, alloc, links, 2, 23, 44);
    sew(rt, alloc, links, 2, 27, 40);
    sew(rt, alloc, links, 2, 35, 48);
}

/// Makes the dual of a map that has one by its edit, and answers how many links changed.
fn apply_dual<K: Kind, const DIM: usize>(
    rt: &impl Abort,
    alloc: Global,
    links: &mut Links<K, DIM>,
) -> usize
    requires { Laws K.kind (links_of links.old.rows) }
    ensures { Laws K.kind (links_of links.new.rows) }
{
    let made = links.made();
    match dual_plan(alloc, links) {
        Ok(edit) => {
            links.apply(&edit);
            assert_eq!(rt; links.made(), made);
            edit.changes.len()
        }
        Err(_) => panic!(rt; "no dual"),
    }
}

fn dart(rt: &impl Abort, number: u32) -> Dart {
    Dart::new(number).expect(rt, "0 is no dart")
}

/// The numbers of the darts at the links of a dart.
fn row(rt: &impl Abort, links: &Links<Alpha, 2>, number: u32) -> [Option<u32>; 3] {
    let dart = dart(rt, number);
    [
        links.link(dart, 0).map(Dart::number),
        links.link(dart, 1).map(Dart::number),
        links.link(dart, 2).map(Dart::number),
    ]
}

/// The dart after a dart on the way round its face.
fn next(rt: &impl Abort, links: &Links<Alpha, 2>, dart: Dart) -> Dart {
    let end = links.link(dart, 0).expect(rt, "link 0 is free");
    links.link(end, 1).expect(rt, "link 1 is free")
}

// Three squares of the cube meet at each vertex, so each face of the dual has three sides. The dual of the dual is the cube.
#[test]
fn dual_of_a_cube_has_triangles(rt: HostRuntime) -> Result<(), Fail> {
    let alloc = rt.alloc();
    let mut links = Links::<Alpha, 2>::new(alloc);
    cube(&rt, alloc, &mut links);
    assert_eq!(&rt; row(&rt, &links, 1), [Some(2), Some(8), Some(42)]);
    assert_eq!(&rt; row(&rt, &links, 48), [Some(47), Some(41), Some(35)]);
    assert!(&rt; dualable(&links));
    assert_eq!(&rt; apply_dual(&rt, alloc, &mut links), 96);
    assert_eq!(&rt; row(&rt, &links, 1), [Some(42), Some(8), Some(2)]);
    assert_eq!(&rt; row(&rt, &links, 48), [Some(35), Some(41), Some(47)]);
    let one = dart(&rt, 1);
    let two = next(&rt, &links, one);
    let three = next(&rt, &links, two);
    assert!(&rt; one != two && one != three && two != three);
    assert_eq!(&rt; next(&rt, &links, three), one);
    assert_eq!(&rt; apply_dual(&rt, alloc, &mut links), 96);
    assert_eq!(&rt; row(&rt, &links, 1), [Some(2), Some(8), Some(42)]);
    Ok(())
}

#[test]
fn dual_of_a_cube_is_made_in_place(rt: HostRuntime) -> Result<(), Fail> {
    let alloc = rt.alloc();
    let mut links = Links::<Alpha, 2>::new(alloc);
    cube(&rt, alloc, &mut links);
    assert_eq!(&rt; generalized::take_dual(&mut links), Ok(()));
    assert_eq!(&rt; links.made(), 48);
    assert_eq!(&rt; row(&rt, &links, 1), [Some(42), Some(8), Some(2)]);
    assert_eq!(&rt; row(&rt, &links, 48), [Some(35), Some(41), Some(47)]);
    assert_eq!(&rt; generalized::take_dual(&mut links), Ok(()));
    assert_eq!(&rt; row(&rt, &links, 1), [Some(2), Some(8), Some(42)]);
    Ok(())
}

#[test]
fn a_triangle_alone_stays_as_it_is(rt: HostRuntime) -> Result<(), Fail> {
    let alloc = rt.alloc();
    let mut links = Links::<Alpha, 2>::new(alloc);
    polygon(&rt, alloc, &mut links, 3);
    assert_eq!(&rt; generalized::take_dual(&mut links), Err(Refusal::Boundary));
    assert_eq!(&rt; row(&rt, &links, 1), [Some(2), Some(6), None]);
    Ok(())
}

#[test]
fn a_triangle_alone_has_no_dual(rt: HostRuntime) -> Result<(), Fail> {
    let alloc = rt.alloc();
    let mut links = Links::<Alpha, 2>::new(alloc);
    polygon(&rt, alloc, &mut links, 3);
    assert!(&rt; !dualable(&links));
    assert!(&rt;
        matches!(
            dual_plan(alloc, &links),
            Err(Refused::Line(Refusal::Boundary))
        )
    );
    Ok(())
}

// A dart whose links are free is in the way only while it lives.
#[test]
fn dead_darts_are_not_looked_at(rt: HostRuntime) -> Result<(), Fail> {
    let alloc = rt.alloc();
    let mut links = Links::<Alpha, 2>::new(alloc);
    assert!(&rt; dualable(&links));
    assert!(&rt; links.reserve(1).is_ok());
    links.apply_plain(&PlainEdit {
        births: 1,
        deaths: Vec::new(alloc),
        changes: Vec::new(alloc),
    });
    let one = dart(&rt, 1);
    assert!(&rt; links.is_live(one));
    assert!(&rt; !dualable(&links));
    links.apply_plain(&PlainEdit {
        births: 0,
        deaths: Vec::from_slice(alloc, &[one])?,
        changes: Vec::new(alloc),
    });
    assert!(&rt; dualable(&links));
    Ok(())
}

/// Two volumes of two triangles each, which share both faces.
fn two_volumes(rt: &impl Abort, alloc: Global, links: &mut Links<Beta, 3>)
    requires { Laws beta (links_of links.old.rows) }
    ensures { Laws beta (links_of links.new.rows) }
{
    for _triangle in 0..4 {
        polygon(rt, alloc, links, 3);
    }
    sew(rt, alloc, links, 2, 1, 4);
    sew(rt, alloc, links, 2, 2, 6);
    sew(rt, alloc, links, 2, 3, 5);
    sew(rt, alloc, links, 2, 7, 10);
    sew(rt, alloc, links, 2, 8, 12);
    sew(rt, alloc, links, 2, 9, 11);
    sew(rt, alloc, links, 3, 1, 7);
    sew(rt, alloc, links, 3, 4, 10);
}

/// The numbers of the darts at the links of a dart of a combinatorial map, 0 for none.
fn directed_row(rt: &impl Abort, links: &Links<Beta, 3>, number: u32) -> [u32; 4] {
    let dart = dart(rt, number);
    [
        links.number_at(dart, 0),
        links.number_at(dart, 1),
        links.number_at(dart, 2),
        links.number_at(dart, 3),
    ]
}

// The last link alone stays. Two faces meet at each edge of the volumes, so each face of the dual has two sides.
#[test]
fn dual_of_a_combinatorial_map(rt: HostRuntime) -> Result<(), Fail> {
    let alloc = rt.alloc();
    let mut links = Links::<Beta, 3>::new(alloc);
    two_volumes(&rt, alloc, &mut links);
    assert!(&rt; dualable(&links));
    assert_eq!(&rt; apply_dual(&rt, alloc, &mut links), 36);
    assert_eq!(&rt; directed_row(&rt, &links, 1), [10, 10, 8, 7]);
    assert_eq!(&rt; directed_row(&rt, &links, 6), [9, 9, 12, 11]);
    assert_eq!(&rt; apply_dual(&rt, alloc, &mut links), 36);
    assert_eq!(&rt; directed_row(&rt, &links, 1), [3, 2, 4, 7]);
    Ok(())
}

#[test]
fn dual_of_a_combinatorial_map_is_made_in_place(rt: HostRuntime) {
    let alloc = rt.alloc();
    let mut links = Links::<Beta, 3>::new(alloc);
    two_volumes(&rt, alloc, &mut links);
    assert_eq!(&rt; combinatorial::take_dual(&mut links), Ok(()));
    assert_eq!(&rt; links.made(), 12);
    assert_eq!(&rt; directed_row(&rt, &links, 1), [10, 10, 8, 7]);
    assert_eq!(&rt; directed_row(&rt, &links, 6), [9, 9, 12, 11]);
    assert_eq!(&rt; combinatorial::take_dual(&mut links), Ok(()));
    assert_eq!(&rt; directed_row(&rt, &links, 1), [3, 2, 4, 7]);
}

/// Four triangles in dimension 8: two and two are sewn by the links 2 to 7, and link 8 leads from the one two to the other.
fn four_triangles(rt: &impl Abort, alloc: Global, links: &mut Links<Beta, 8>)
    requires { Laws beta (links_of links.old.rows) }
    ensures { Laws beta (links_of links.new.rows) }
{
    for _triangle in 0..4 {
        polygon(rt, alloc, links, 3);
    }
    sew(rt, alloc, links, 2, 1, 4);
    sew(rt, alloc, links, 2, 2, 6);
    sew(rt, alloc, links, 2, 3, 5);
    sew(rt, alloc, links, 2, 7, 10);
    sew(rt, alloc, links, 2, 8, 12);
    sew(rt, alloc, links, 2, 9, 11);
    for link in 3..8 {
        sew(rt, alloc, links, link, 1, 4);
        sew(rt, alloc, links, link, 7, 10);
    }
    sew(rt, alloc, links, 8, 1, 7);
}

#[test]
fn dual_of_dimension_8_is_made_in_place(rt: HostRuntime) -> Result<(), Fail> {
    let alloc = rt.alloc();
    let mut links = Links::<Beta, 8>::new(alloc);
    four_triangles(&rt, alloc, &mut links);
    assert_eq!(&rt; combinatorial::take_dual(&mut links), Ok(()));
    let mut row = Vec::new(alloc);
    for link in 0..9 {
        row.push(links.number_at(dart(&rt, 2), link))?;
    }
    assert_eq!(&rt;
        row.as_slice(),
        [11, 11, 11, 11, 11, 11, 11, 7, 9].as_slice()
    );
    Ok(())
}

// All links of a square are there, and it is sewn to itself by link 3: in the dual, link 2 would join each dart to itself.
#[test]
fn a_combinatorial_map_without_free_links_may_have_no_dual(rt: HostRuntime) -> Result<(), Fail> {
    let alloc = rt.alloc();
    let mut links = Links::<Beta, 3>::new(alloc);
    polygon(&rt, alloc, &mut links, 4);
    sew(&rt, alloc, &mut links, 2, 1, 2);
    sew(&rt, alloc, &mut links, 2, 3, 4);
    sew(&rt, alloc, &mut links, 3, 1, 4);
    assert_eq!(&rt; directed_row(&rt, &links, 1), [4, 2, 2, 4]);
    assert_eq!(&rt; directed_row(&rt, &links, 3), [2, 4, 4, 2]);
    assert!(&rt; !dualable(&links));
    assert_eq!(&rt;
        combinatorial::take_dual(&mut links),
        Err(Refusal::Boundary)
    );
    assert!(&rt;
        matches!(
            dual_plan(alloc, &links),
            Err(Refused::Line(Refusal::Boundary))
        )
    );
    Ok(())
}
