//! What no clause says: that maps are made where memory is there, and that links and faults are as meant.
ghost use Rattle.std.specs.Prelude.{IfOk};
ghost use Rattle.map_defs.specs.Off.{HasFaces};
ghost use Rattle.off_text.specs.Meanings.{mesh_view};

use link_rows::PlainEdit;
use map_kind::{Alpha, Beta, Dart, Kind, Value};
use mesh_build::{MeshFault, mesh_map, mesh_rows};
use off_text::{Mesh, read_off};
use std::alloc::Global;
use std::test::Fail;

const CUBE: &str = "OFF 8 6 0
0 0 0\n1 0 0\n2 0 0\n3 0 0\n4 0 0\n5 0 0\n6 0 0\n7 0 0
4  0 3 2 1\n4  4 5 6 7\n4  0 1 5 4\n4  1 2 6 5\n4  2 3 7 6\n4  3 0 4 7
";

fn mesh_of(alloc: Global, text: &str) -> Result<Mesh, Fail>
    ensures { IfOk result (λ mesh. HasFaces (mesh_view mesh)) }
{
    let bytes = text.as_bytes();
    if bytes.len() > 16_777_216 {
        Err("the text is long")?;
    }
    match read_off(alloc, bytes) {
        Ok(mesh) => Ok(mesh),
        Err(_) => Err("not read")?,
    }
}

/// The darts of the cube that link 2 joins.
const SEWN: [(u32, u32); 24] = [
    (1, 42),
    (2, 41),
    (3, 34),
    (4, 33),
    (5, 26),
    (6, 25),
    (7, 18),
    (8, 17),
    (9, 22),
    (10, 21),
    (11, 30),
    (12, 29),
    (13, 38),
    (14, 37),
    (15, 46),
    (16, 45),
    (19, 32),
    (20, 31),
    (23, 44),
    (24, 43),
    (27, 40),
    (28, 39),
    (35, 48),
    (36, 47),
];

/// The least dart of each corner of the cube, and the corner's number.
const CORNERS: [(u32, i64); 8] = [
    (1, 0),
    (2, 3),
    (4, 2),
    (6, 1),
    (9, 4),
    (10, 5),
    (12, 6),
    (14, 7),
];

/// The edit of a mesh alone.
fn edit_of_mesh<K: Kind>(alloc: Global, mesh: &Mesh) -> Result<PlainEdit, Fail>
    requires { HasFaces (mesh_view mesh.now) }
{
    match mesh_rows::<K, 2>(alloc, mesh) {
        Ok(built) => Ok(built.edit),
        Err(_) => Err("not built")?,
    }
}

fn leads(edit: &PlainEdit, dart: u32, link: usize, new: u32) -> bool {
    edit.changes.iter().any(|change| {
        change.link == link && change.dart.number() == dart && change.new == new
    })
}

#[test]
fn a_cube(rt: HostRuntime) -> Result<(), Fail> {
    let mesh = mesh_of(rt.alloc(), CUBE)?;
    let built = mesh_rows::<Alpha, 2>(rt.alloc(), &mesh)
        .ok()
        .ok_or("not built")?;
    assert_eq!(rt; built.edit.births, 48);
    assert_eq!(rt; built.edit.changes.len(), 144);
    for (one, other) in SEWN {
        assert!(rt; leads(&built.edit, one, 2, other), "{one} {other}");
    }
    assert_eq!(rt; built.places.len(), CORNERS.len());
    for (place, (dart, a)) in built.places.iter().zip(&CORNERS) {
        assert_eq!(rt; place.dart.number(), *dart);
        assert_eq!(rt; place.value, Value { a: *a, b: 0, c: 0 });
    }
    Ok(())
}

#[test]
fn links_of_a_cube(rt: HostRuntime) -> Result<(), Fail> {
    let mesh = mesh_of(rt.alloc(), CUBE)?;
    let built = mesh_map::<Alpha, 2>(rt.alloc(), &mesh)
        .ok()
        .ok_or("not built")?;
    let first = Dart::new(1).unwrap();
    assert_eq!(rt; built.links.made(), 48);
    assert_eq!(rt; built.links.link(first, 0), Dart::new(2));
    assert_eq!(rt; built.links.link(first, 2), Dart::new(42));
    assert_eq!(rt; (built.places.len(), built.cells.len()), (8, 8));
    Ok(())
}

#[test]
fn links_of_a_cube_in_a_combinatorial_map(rt: HostRuntime) -> Result<(), Fail> {
    let mesh = mesh_of(rt.alloc(), CUBE)?;
    let built = mesh_map::<Beta, 2>(rt.alloc(), &mesh)
        .ok()
        .ok_or("not built")?;
    let first = Dart::new(1).unwrap();
    assert_eq!(rt; built.links.made(), 24);
    assert_eq!(rt; built.links.link(first, 0), Dart::new(4));
    assert_eq!(rt; built.links.link(first, 1), Dart::new(2));
    assert_eq!(rt; built.links.link(first, 2), Dart::new(21));
    assert_eq!(rt; (built.places.len(), built.cells.len()), (8, 8));
    Ok(())
}

const SAME_WAY: &str = "OFF 4 2 0\n0 0 0\n1 0 0\n2 0 0\n3 0 0\n3 0 1 2\n3 0 1 3";

const OTHER_WAY: &str = "OFF 4 2 0\n0 0 0\n1 0 0\n2 0 0\n3 0 0\n3 0 1 2\n3 1 0 3";

#[test]
fn a_side_that_leads_the_same_way(rt: HostRuntime) -> Result<(), Fail> {
    let mesh = mesh_of(rt.alloc(), SAME_WAY)?;
    let turned = mesh_rows::<Beta, 2>(rt.alloc(), &mesh);
    assert!(rt; matches!(turned, Err(MeshFault::Turned { face: 1 })));
    let edit = edit_of_mesh::<Alpha>(rt.alloc(), &mesh)?;
    assert!(rt; leads(&edit, 1, 2, 7));
    assert!(rt; leads(&edit, 2, 2, 8));
    Ok(())
}

/// All links of two triangles of a combinatorial map, sewn along one side: the dart, the link, and where it leads.
const TRIANGLES: [(u32, usize, u32); 14] = [
    (1, 0, 3),
    (1, 1, 2),
    (1, 2, 4),
    (2, 0, 1),
    (2, 1, 3),
    (3, 0, 2),
    (3, 1, 1),
    (4, 0, 6),
    (4, 1, 5),
    (4, 2, 1),
    (5, 0, 4),
    (5, 1, 6),
    (6, 0, 5),
    (6, 1, 4),
];

#[test]
fn sides_of_a_combinatorial_map(rt: HostRuntime) -> Result<(), Fail> {
    let mesh = mesh_of(rt.alloc(), OTHER_WAY)?;
    let edit = edit_of_mesh::<Beta>(rt.alloc(), &mesh)?;
    assert_eq!(rt; edit.births, 6);
    assert_eq!(rt; edit.changes.len(), TRIANGLES.len());
    for (dart, link, new) in TRIANGLES {
        assert!(rt; leads(&edit, dart, link, new), "{dart} {link} {new}");
    }
    Ok(())
}

#[test]
fn fans_at_a_point(rt: HostRuntime) -> Result<(), Fail> {
    let text = "OFF 5 2 0\n0 0 0\n1 0 0\n2 0 0\n3 0 0\n4 0 0\n3 0 1 2\n3 0 3 4";
    let mesh = mesh_of(rt.alloc(), text)?;
    let built = mesh_rows::<Alpha, 3>(rt.alloc(), &mesh)
        .ok()
        .ok_or("not built")?;
    let places = [(1, 0), (2, 1), (4, 2), (7, 0), (8, 3), (10, 4)];
    assert_eq!(rt; built.places.len(), places.len());
    for (place, (dart, a)) in built.places.iter().zip(&places) {
        assert_eq!(rt; place.dart.number(), *dart);
        assert_eq!(rt; place.value, Value { a: *a, b: 0, c: 0 });
    }
    Ok(())
}

#[test]
fn faults(rt: HostRuntime) -> Result<(), Fail> {
    let table = [
        (
            "OFF 5 3 0\n0 0 0\n0 0 0\n0 0 0\n0 0 0\n0 0 0\n3 0 1 2\n3 1 0 3\n3 0 1 4",
            MeshFault::ThreeSides { face: 2 },
        ),
        (
            "OFF 3 1 0\n0 0 0\n0 0 0\n0 0 0\n3 0 1 1",
            MeshFault::Repeated { face: 0 },
        ),
        (
            "OFF 4 4 0\n0 0 0\n0 0 0\n0 0 0\n0 0 0\n3 0 1 2\n3 1 0 3\n3 3 2 3\n3 0 1 2",
            MeshFault::Repeated { face: 2 },
        ),
    ];
    for (text, fault) in table {
        let mesh = mesh_of(rt.alloc(), text)?;
        let made = mesh_rows::<Alpha, 2>(rt.alloc(), &mesh);
        assert!(rt; matches!(made, Err(told) if told == fault), "{text}");
    }
    Ok(())
}

#[test]
fn too_many_darts(rt: HostRuntime) -> Result<(), Fail> {
    let mut text = String::from_str(rt.alloc(), "OFF 1 33 0\n0 0 0\n")?;
    for _ in 0..33 {
        text.push_str("65536")?;
        for _ in 0..65536 {
            text.push_str(" 0")?;
        }
        text.push_str("\n")?;
    }
    let mesh = mesh_of(rt.alloc(), text.as_str())?;
    let made = mesh_rows::<Alpha, 2>(rt.alloc(), &mesh);
    assert!(rt; matches!(made, Err(MeshFault::Full { darts: 4_325_376 })));
    Ok(())
}
