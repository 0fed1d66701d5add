//! What no clause says: that texts are read where memory is there, and that the grammar is as meant.
ghost use Rattle.std.specs.Prelude.{◌≤◌, length};

use map_kind::Value;
use off_text::{OffFault, OffWhat, TEXT_MAX, read_off};
use std::alloc::Global;
use std::test::Fail;

const TRIANGLE: &str = "OFF\n3 1 0\n0 0 0\n4 0 0\n0 3 0\n3 0 1 2\n";

const CUBE: &str = "OFF  # a cube of side two
9 6 0

0 0 0
2.000 0 0
2 2 0
0 2.0 0
0 0 2
2 0 2
2 2 2
0 2 2
9 9 9   # used by no face
4  0 3 2 1  255 0 0
4  4 5 6 7  0 255 0
4  0 1 5 4
4  1 2 6 5
4  2 3 7 6
4  3 0 4 7
";

fn at(a: i64, b: i64, c: i64) -> Value {
    Value { a, b, c }
}

fn fault_of(alloc: Global, text: &[u8]) -> Option<(u32, OffWhat)>
    requires { length text.now ≤ TEXT_MAX }
{
    match read_off(alloc, text) {
        Err(OffFault::Bad { line, what }) => Some((line, what)),
        _ => None,
    }
}

#[test]
fn a_cube(rt: HostRuntime) -> Result<(), Fail> {
    let mesh = read_off(rt.alloc(), CUBE.as_bytes())
        .ok()
        .ok_or("not read")?;
    let points = [
        at(0, 0, 0),
        at(2, 0, 0),
        at(2, 2, 0),
        at(0, 2, 0),
        at(0, 0, 2),
        at(2, 0, 2),
        at(2, 2, 2),
        at(0, 2, 2),
        at(9, 9, 9),
    ];
    assert_eq!(rt; mesh.points.as_slice(), points.as_slice());
    let faces = [
        [0, 3, 2, 1],
        [4, 5, 6, 7],
        [0, 1, 5, 4],
        [1, 2, 6, 5],
        [2, 3, 7, 6],
        [3, 0, 4, 7],
    ];
    assert_eq!(rt; mesh.faces.len(), faces.len());
    for (place, corners) in faces.iter().enumerate() {
        assert_eq!(rt; mesh.faces.list(place), corners.as_slice());
    }
    Ok(())
}

#[test]
fn fronts_of_a_triangle(rt: HostRuntime) -> Result<(), Fail> {
    let table = [
        (0, 2, 1, OffWhat::NoHeader),
        (3, 4, 2, OffWhat::Short),
        (5, 8, 2, OffWhat::BadCounts),
        (9, 14, 3, OffWhat::Short),
        (15, 20, 4, OffWhat::Short),
        (21, 26, 5, OffWhat::Short),
        (27, 34, 6, OffWhat::Short),
    ];
    for (first, last, line, what) in table {
        for length in first..last + 1 {
            let front = TRIANGLE.as_bytes().get(..length).ok_or("too long")?;
            assert_eq!(rt; fault_of(rt.alloc(), front), Some((line, what)), "{length}");
        }
    }
    let whole = TRIANGLE.as_bytes();
    assert!(rt; read_off(rt.alloc(), whole).is_ok());
    assert!(rt; read_off(rt.alloc(), &whole[..35]).is_ok());
    Ok(())
}

#[test]
fn faults(rt: HostRuntime) -> Result<(), Fail> {
    let table = [
        ("COFF\n", 1, OffWhat::NoHeader),
        ("", 1, OffWhat::NoHeader),
        ("# no word\n\n", 3, OffWhat::NoHeader),
        ("off 0 0 0", 1, OffWhat::NoHeader),
        ("OFF\n", 2, OffWhat::Short),
        ("OFF\n3 1\n", 2, OffWhat::BadCounts),
        ("OFF 3", 1, OffWhat::BadCounts),
        ("OFF\n\n1 0 0 0\n", 3, OffWhat::BadCounts),
        ("OFF 4294967296 0 0", 1, OffWhat::BadCounts),
        ("OFF 0 0 4294967296", 1, OffWhat::BadCounts),
        ("OFF 0 0 -1", 1, OffWhat::BadCounts),
        // no memory is asked for what a header promises
        ("OFF\n4294967295 1 0", 3, OffWhat::Short),
        ("OFF\n0 4294967295 0", 3, OffWhat::Short),
        ("OFF 1 0 0\n0 0", 2, OffWhat::Short),
        ("OFF 1 0 0\n0 0 0 0", 2, OffWhat::Extra),
        ("OFF 1 0 0\nx 0", 2, OffWhat::Short),
        ("OFF 1 0 0\n0 0 0.5", 2, OffWhat::NotInteger),
        ("OFF 1 0 0\n0 0 1e3", 2, OffWhat::NotInteger),
        ("OFF 1 0 0\n0 0 .0", 2, OffWhat::NotInteger),
        ("OFF 1 0 0\n0 0 +-1", 2, OffWhat::NotInteger),
        ("OFF 1 0 0\n0 0 1.0.0", 2, OffWhat::NotInteger),
        ("OFF 1 0 0\n9223372036854775808 0 0", 2, OffWhat::OutOfRange),
        (
            "OFF 1 0 0\n0 -9223372036854775809 0",
            2,
            OffWhat::OutOfRange,
        ),
        (
            "OFF 1 0 0\n0 99999999999999999999999 x",
            2,
            OffWhat::OutOfRange,
        ),
        (
            "OFF 1 0 0\nx 99999999999999999999999 0",
            2,
            OffWhat::NotInteger,
        ),
        ("OFF 1 1 0\n0 0 0\n2 0 1", 3, OffWhat::BadFace),
        ("OFF 1 1 0\n0 0 0\n65537 0", 3, OffWhat::BadFace),
        ("OFF 1 1 0\n0 0 0\n-3 0 0 0", 3, OffWhat::BadFace),
        ("OFF 1 1 0\n0 0 0\n3 0 0", 3, OffWhat::Short),
        ("OFF 1 1 0\n0 0 0\n3 9 0", 3, OffWhat::Short),
        ("OFF 1 1 0\n0 0 0\n3 0 0 1", 3, OffWhat::BadIndex),
        ("OFF 1 1 0\n0 0 0\n3 0 0.0 0", 3, OffWhat::BadIndex),
        ("OFF 1 1 0\n0 0 0\n3 0 0 0\n0", 4, OffWhat::Extra),
        ("OFF 0 0 0\n\u{7f}", 2, OffWhat::NotText),
        ("OFF 0 0 0\n0 \u{e9}", 2, OffWhat::NotText),
        ("OFF 1 1 0\nx 0 0\n\u{7f}", 2, OffWhat::NotInteger),
    ];
    for (text, line, what) in table {
        assert!(rt; text.len() < 100);
        assert_eq!(rt;
            fault_of(rt.alloc(), text.as_bytes()),
            Some((line, what)),
            "{text}"
        );
    }
    Ok(())
}

#[test]
fn coordinates(rt: HostRuntime) -> Result<(), Fail> {
    let text =
        "OFF 3 1 0 # \u{e9}\r\n+2 2. -0\n007\t-2.000 9223372036854775807.0\n-9223372036854775808 0 0 \u{23}\n\n3 2 00 1 red";
    let mesh = read_off(rt.alloc(), text.as_bytes())
        .ok()
        .ok_or("not read")?;
    let points = [at(2, 2, 0), at(7, -2, i64::MAX), at(i64::MIN, 0, 0)];
    assert_eq!(rt; mesh.points.as_slice(), points.as_slice());
    assert_eq!(rt; mesh.faces.len(), 1);
    assert_eq!(rt; mesh.faces.list(0), [2, 0, 1].as_slice());
    Ok(())
}

#[test]
fn names(rt: HostRuntime) {
    assert_eq!(rt; OffWhat::NoHeader.name(), "NoHeader");
    assert_eq!(rt; OffWhat::NotText.name(), "NotText");
}
