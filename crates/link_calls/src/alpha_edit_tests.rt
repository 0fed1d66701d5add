ghost use Rattle.std.specs.Prelude.{◌≡◌, ◌≤◌, IfOk, length};
ghost use Rattle.map_defs.specs.Kind.{alpha};
ghost use Rattle.map_defs.specs.Rows.{links_of, IsLive, IsSound};
ghost use Rattle.map_defs.specs.Laws.{Laws};
ghost use Rattle.map_defs.specs.Edits.{Fits};

use alpha_edit::{
    contract_plan, contractible, edge_plan, face_plan, removable, remove_plan, vertex_plan,
};
use link_rows::{Edit, Links, polygon_edit};
use map_kind::{Alpha, Dart, Refusal, Refused};
use sewing::sew_plan;
use std::alloc::{AllocError, Global};
use std::process::Abort;
use std::test::Fail;

/// A polygon of so many sides, numbered on from those that were made.
fn polygon<const DIM: usize>(
    rt: &impl Abort,
    alloc: Global,
    links: &mut Links<Alpha, DIM>,
    sides: u32,
) -> Result<(), AllocError>
    requires low { 3 ≤ sides }
    requires high { sides ≤ 9 }
    requires laws { Laws alpha (links_of links.old.rows) }
    ensures { Laws alpha (links_of links.new.rows) }
{
    assert!(rt; links.reserve(2 * sides).is_ok());
    let edit = polygon_edit(alloc, links, sides)?;
    links.apply(&edit);
    Ok(())
}

/// Sews two darts that can be sewn, at link 2.
fn sew<const DIM: usize>(
    rt: &impl Abort,
    alloc: Global,
    links: &mut Links<Alpha, DIM>,
    one: u32,
    other: u32,
)
    requires { Laws alpha (links_of links.old.rows) }
    ensures { Laws alpha (links_of links.new.rows) }
{
    let one = dart(rt, links, one);
    let other = dart(rt, links, other);
    match sew_plan(alloc, links, 2, one, other) {
        Ok(edit) => links.apply(&edit),
        Err(_) => panic!(rt; "not sewn"),
    }
}

/// A live dart.
fn dart<const DIM: usize>(rt: &impl Abort, links: &Links<Alpha, DIM>, number: u32) -> Dart
    ensures live { IsLive links.now.rows result }
    ensures number { result ≡ number }
    ensures low { 2 ≤ DIM }
    ensures sound { IsSound alpha DIM links.now.rows }
{
    let dart = Dart::new(number).expect(rt, "0 is no dart");
    let _ = links.dimension();
    assert!(rt; links.is_live(dart));
    dart
}

/// A face along a path of live darts.
fn face(
    rt: &impl Abort,
    alloc: Global,
    links: &Links<Alpha, 3>,
    path: &[u32],
) -> Result<Edit, Refused>
    requires some { 1 ≤ length path.now }
    requires laws { Laws alpha (links_of links.now.rows) }
    ensures { IfOk result (λ edit. Fits alpha 3 links.now.rows edit) }
{
    let mut darts = Vec::new(alloc);
    for number in path {
        darts.push(dart(rt, links, *number))?;
    }
    face_plan(alloc, links, &darts)
}

/// The links 0 to `DIM` of the darts from one number to another.
fn rows<const DIM: usize>(
    rt: &impl Abort,
    alloc: Global,
    links: &Links<Alpha, DIM>,
    low: u32,
    high: u32,
) -> Result<Vec<u32>, AllocError> {
    let mut rows = Vec::new(alloc);
    for number in low..high {
        let dart = dart(rt, links, number);
        for link in 0..links.dimension() + 1 {
            rows.push(match links.link(dart, link) {
                Some(other) => other.number(),
                None => 0,
            })?;
        }
    }
    Ok(rows)
}

fn apply<const DIM: usize>(rt: &impl Abort, links: &mut Links<Alpha, DIM>, edit: &Edit)
    requires { Fits alpha DIM links.old.rows edit.now }
{
    assert!(rt; links.reserve(edit.births).is_ok());
    links.apply(edit);
}

fn refusal(planned: Result<Edit, Refused>) -> Option<Refused> {
    match planned {
        Ok(_) => None,
        Err(refused) => Some(refused),
    }
}

#[test]
fn a_vertex_parts_an_edge(rt: HostRuntime) -> Result<(), Fail> {
    let alloc = rt.alloc();
    let mut links = Links::<Alpha, 2>::new(alloc);
    polygon(&rt, alloc, &mut links, 3)?;
    let edit = vertex_plan(alloc, &links, dart(&rt, &links, 2))?;
    apply(&rt, &mut links, &edit);
    assert_eq!(&rt;
        rows(&rt, alloc, &links, 1, 9)?.as_slice(),
        [
            7, 6, 0, 8, 3, 0, 4, 2, 0, 3, 5, 0, 6, 4, 0, 5, 1, 0, 1, 8, 0, 2, 7, 0
        ]
        .as_slice()
    );
    Ok(())
}

#[test]
fn an_edge_parts_a_face(rt: HostRuntime) -> Result<(), Fail> {
    let alloc = rt.alloc();
    let mut links = Links::<Alpha, 2>::new(alloc);
    polygon(&rt, alloc, &mut links, 4)?;
    polygon(&rt, alloc, &mut links, 4)?;
    let one = dart(&rt, &links, 1);
    assert_eq!(&rt;
        refusal(edge_plan(alloc, &links, one, dart(&rt, &links, 8))),
        Some(Refused::Line(Refusal::SameCorner))
    );
    assert_eq!(&rt;
        refusal(edge_plan(alloc, &links, one, dart(&rt, &links, 9))),
        Some(Refused::Line(Refusal::OtherCell))
    );
    match edge_plan(alloc, &links, one, dart(&rt, &links, 4)) {
        Ok(edit) => apply(&rt, &mut links, &edit),
        Err(_) => panic!(&rt; "no edge"),
    }
    assert_eq!(&rt;
        rows(&rt, alloc, &links, 17, 21)?.as_slice(),
        [18, 1, 20, 17, 4, 19, 20, 5, 18, 19, 8, 17].as_slice()
    );
    Ok(())
}

/// Two triangles sewn along their sides, and a third one.
fn triangles(rt: &impl Abort, alloc: Global) -> Result<Links<Alpha, 3>, AllocError>
    ensures { IfOk result (λ links. Laws alpha (links_of links.rows)) }
{
    let mut links = Links::<Alpha, 3>::new(alloc);
    polygon(rt, alloc, &mut links, 3)?;
    polygon(rt, alloc, &mut links, 3)?;
    polygon(rt, alloc, &mut links, 3)?;
    sew(rt, alloc, &mut links, 1, 7);
    sew(rt, alloc, &mut links, 3, 9);
    sew(rt, alloc, &mut links, 5, 11);
    Ok(links)
}

#[test]
fn a_face_needs_a_closed_path(rt: HostRuntime) -> Result<(), Fail> {
    let alloc = rt.alloc();
    let links = triangles(&rt, alloc)?;
    assert_eq!(&rt;
        refusal(face(&rt, alloc, &links, &[1, 3, 13])),
        Some(Refused::Line(Refusal::OtherCell))
    );
    assert_eq!(&rt;
        refusal(face(&rt, alloc, &links, &[1, 5, 3])),
        Some(Refused::Line(Refusal::NotClosed))
    );
    assert_eq!(&rt;
        refusal(face(&rt, alloc, &links, &[1, 3, 5, 1, 3, 5])),
        Some(Refused::Line(Refusal::Unpaired))
    );
    assert_eq!(&rt;
        refusal(face(&rt, alloc, &links, &[1, 2])),
        Some(Refused::Line(Refusal::Unpaired))
    );
    Ok(())
}

#[test]
fn a_face_parts_a_volume(rt: HostRuntime) -> Result<(), Fail> {
    let alloc = rt.alloc();
    let mut links = triangles(&rt, alloc)?;
    match face(&rt, alloc, &links, &[1, 3, 5]) {
        Ok(edit) => apply(&rt, &mut links, &edit),
        Err(_) => panic!(&rt; "no face"),
    }
    assert_eq!(&rt;
        rows(&rt, alloc, &links, 19, 23)?.as_slice(),
        [20, 24, 1, 25, 19, 21, 2, 26, 22, 20, 3, 27, 21, 23, 4, 28].as_slice()
    );
    assert_eq!(&rt;
        rows(&rt, alloc, &links, 1, 2)?.as_slice(),
        [2, 6, 19, 0].as_slice()
    );
    Ok(())
}

/// A cube: six squares of eight darts each, sewn along its twelve edges.
fn cube(rt: &impl Abort, alloc: Global) -> Result<Links<Alpha, 2>, AllocError>
    ensures { IfOk result (λ links. Laws alpha (links_of links.rows)) }
{
    let mut links = Links::<Alpha, 2>::new(alloc);
    for _square in 0..6 {
        polygon(rt, alloc, &mut links, 4)?;
    }
    sew(rt, alloc, &mut links, 1, 42);
    sew(rt, alloc, &mut links, 3, 34);
    sew(rt, alloc, &mut links, 5, 26);
    sew(rt, alloc, &mut links, 7, 18);
    sew(rt, alloc, &mut links, 9, 22);
    sew(rt, alloc, &mut links, 11, 30);
    sew(rt, alloc, &mut links, 13, 38);
    sew(rt, alloc, &mut links, 15, 46);
    sew(rt, alloc, &mut links, 19, 32);
    sew(rt, alloc, &mut links, 23, 44);
    sew(rt, alloc, &mut links, 27, 40);
    sew(rt, alloc, &mut links, 35, 48);
    Ok(links)
}

#[test]
fn a_removed_vertex_gives_the_triangle_back(rt: HostRuntime) -> Result<(), Fail> {
    let alloc = rt.alloc();
    let mut links = Links::<Alpha, 2>::new(alloc);
    polygon(&rt, alloc, &mut links, 3)?;
    let edit = vertex_plan(alloc, &links, dart(&rt, &links, 2))?;
    assert!(&rt; links.reserve(edit.births).is_ok());
    links.apply(&edit);
    let seventh = dart(&rt, &links, 7);
    assert!(&rt; removable(alloc, &links, 0, seventh)?);
    match remove_plan(alloc, &links, 0, seventh) {
        Ok(edit) => apply(&rt, &mut links, &edit),
        Err(_) => panic!(&rt; "not removed"),
    }
    assert_eq!(&rt; links.live_count(), 6);
    assert_eq!(&rt;
        rows(&rt, alloc, &links, 1, 7)?.as_slice(),
        [2, 6, 0, 1, 3, 0, 4, 2, 0, 3, 5, 0, 6, 4, 0, 5, 1, 0].as_slice()
    );
    Ok(())
}

// Two triangles sewn along a side: without it, the walk across leads from each of its ends to the other triangle.
#[test]
fn a_removed_edge_joins_two_faces(rt: HostRuntime) -> Result<(), Fail> {
    let alloc = rt.alloc();
    let mut links = Links::<Alpha, 2>::new(alloc);
    polygon(&rt, alloc, &mut links, 3)?;
    polygon(&rt, alloc, &mut links, 3)?;
    sew(&rt, alloc, &mut links, 1, 7);
    match remove_plan(alloc, &links, 1, dart(&rt, &links, 1)) {
        Ok(edit) => apply(&rt, &mut links, &edit),
        Err(_) => panic!(&rt; "not removed"),
    }
    assert_eq!(&rt;
        rows(&rt, alloc, &links, 3, 7)?.as_slice(),
        [4, 9, 0, 3, 5, 0, 6, 4, 0, 5, 12, 0].as_slice()
    );
    assert_eq!(&rt;
        rows(&rt, alloc, &links, 9, 13)?.as_slice(),
        [10, 3, 0, 9, 11, 0, 12, 10, 0, 11, 6, 0].as_slice()
    );
    Ok(())
}

#[test]
fn an_edge_of_a_cube_is_contracted(rt: HostRuntime) -> Result<(), Fail> {
    let alloc = rt.alloc();
    let mut links = cube(&rt, alloc)?;
    let first = dart(&rt, &links, 1);
    assert!(&rt; !removable(alloc, &links, 0, first)?);
    assert!(&rt; removable(alloc, &links, 1, first)?);
    assert!(&rt; !contractible(alloc, &links, 0, first)?);
    assert!(&rt; !contractible(alloc, &links, 2, first)?);
    assert_eq!(&rt;
        refusal(remove_plan(alloc, &links, 0, first)),
        Some(Refused::Line(Refusal::NotRemovable))
    );
    assert_eq!(&rt;
        refusal(contract_plan(alloc, &links, 0, first)),
        Some(Refused::Line(Refusal::NotContractible))
    );
    match contract_plan(alloc, &links, 1, first) {
        Ok(edit) => apply(&rt, &mut links, &edit),
        Err(_) => panic!(&rt; "not contracted"),
    }
    assert_eq!(&rt; links.live_count(), 44);
    assert_eq!(&rt;
        rows(&rt, alloc, &links, 3, 9)?.as_slice(),
        [4, 8, 34, 3, 5, 33, 6, 4, 26, 5, 7, 25, 8, 6, 18, 7, 3, 17].as_slice()
    );
    assert_eq!(&rt;
        rows(&rt, alloc, &links, 43, 49)?.as_slice(),
        [
            44, 48, 24, 43, 45, 23, 46, 44, 16, 45, 47, 15, 48, 46, 36, 47, 43, 35
        ]
        .as_slice()
    );
    Ok(())
}
