//! What no clause says: that the rows of a map are found where memory is there, and what their text looks like.
ghost use Rattle.std.specs.Prelude.{◌≡◌, ◌≤◌, map};
ghost use Rattle.std.specs.List.Sorted.{IsStrictlyIncreasing};

use link_rows::{Links, polygon_edit};
use map_kind::{Alpha, Beta, Dart, Kind, Place, Refusal, Refused, Value};
use off_text::{off_of, write_off};
use std::alloc::Global;
use std::process::Abort;

/// A polygon of so many sides, numbered on from the darts that were made.
fn polygon<K: Kind>(rt: &impl Abort, alloc: Global, links: &mut Links<K, 2>, sides: u32)
    requires low { 3 ≤ sides }
    requires high { sides ≤ 9 }
{
    assert!(rt; K::per_side() <= 2);
    assert!(rt; links.reserve(2 * sides).is_ok());
    match polygon_edit(alloc, links, sides) {
        Ok(edit) => links.apply(&edit),
        Err(_) => panic!(rt; "no memory"),
    }
}

/// A place at a dart: the point `a` 0 -`a`.
fn place(rt: &impl Abort, number: u32, a: i32) -> Place
    ensures { result.dart ≡ number }
{
    Place {
        dart: Dart::new(number).expect(rt, "0 is no dart"),
        value: Value {
            a: i64::from(a),
            b: 0,
            c: -i64::from(a),
        },
    }
}

/// Compares the text of a map, or why it has none.
fn check<K: Kind>(
    rt: &impl Abort,
    alloc: Global,
    links: &Links<K, 2>,
    places: &[Place],
    wanted: Result<&str, Refusal>,
)
    requires { IsStrictlyIncreasing (map (λ place. place.dart) places.now) }
{
    match (off_of(alloc, links, places), wanted) {
        (Ok(rows), Ok(text)) => match write_off(alloc, &rows) {
            Ok(written) => assert_eq!(rt; written.as_slice(), text.as_bytes()),
            Err(_) => panic!(rt; "no memory"),
        },
        (Err(Refused::Line(refusal)), Err(why)) => assert_eq!(rt; refusal, why),
        _ => panic!(rt; "another answer"),
    }
}

#[test]
fn a_triangle(rt: HostRuntime) {
    let alloc = rt.alloc();
    let mut links = Links::<Alpha, 2>::new(alloc);
    check(&rt, alloc, &links, &[], Ok("OFF\n0 0 0\n"));
    polygon(&rt, alloc, &mut links, 3);
    let (one, two, three) = (place(&rt, 1, 1), place(&rt, 2, -2), place(&rt, 4, 3));
    check(
        &rt,
        alloc,
        &links,
        &[one, two, three],
        Ok("OFF\n3 1 3\n1 0 -1\n-2 0 2\n3 0 -3\n3 0 1 2\n"),
    );
    check(&rt, alloc, &links, &[], Err(Refusal::NoPoint));
}

#[test]
fn a_triangle_of_a_combinatorial_map(rt: HostRuntime) {
    let alloc = rt.alloc();
    let mut links = Links::<Beta, 2>::new(alloc);
    polygon(&rt, alloc, &mut links, 3);
    let (one, two, three) = (place(&rt, 1, 1), place(&rt, 2, -2), place(&rt, 3, 3));
    check(
        &rt,
        alloc,
        &links,
        &[one, two, three],
        Ok("OFF\n3 1 3\n1 0 -1\n-2 0 2\n3 0 -3\n3 0 1 2\n"),
    );
}
