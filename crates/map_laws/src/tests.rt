//! The laws at work on small maps.
use crate::{Insertion, LawFault, Total, dual_twice, insert_then_remove, sew_then_unsew, total_of};
use attr_rules::OrCopy;
use map_core::{Done, Map};
use map_kind::{Alpha, Beta, Refusal, Refused, Value};
use std::alloc::AllocError;

/// What an insertion answers.
fn made(first: u32, count: u32) -> Result<Done, LawFault> {
    Ok(Done { first, count })
}

/// Two triangles are sewn and unsewn, and are free again.
#[test]
fn sewing_two_triangles(rt: HostRuntime) -> Result<(), AllocError> {
    let alloc = rt.alloc();
    let mut map = Map::<Alpha, OrCopy, 2>::new(alloc, &OrCopy);
    assert!(rt; map.polygon(alloc, 3).is_ok());
    assert!(rt; map.polygon(alloc, 3).is_ok());
    assert_eq!(rt; sew_then_unsew(alloc, &mut map, 2, 1, 7), Ok(()));
    assert_eq!(rt; map.free(2, 1), Ok(true));
    assert_eq!(rt; map.free(2, 7), Ok(true));
    let fault = LawFault::First(Refused::Line(Refusal::BadDim));
    assert_eq!(rt; sew_then_unsew(alloc, &mut map, 3, 1, 7), Err(fault));
    Ok(())
}

/// A triangle has no dual, and two that are sewn along all sides have one.
#[test]
fn dual_of_two_triangles(rt: HostRuntime) -> Result<(), AllocError> {
    let alloc = rt.alloc();
    let mut map = Map::<Alpha, OrCopy, 2>::new(alloc, &OrCopy);
    assert!(rt; map.polygon(alloc, 3).is_ok());
    let fault = LawFault::First(Refused::Line(Refusal::Boundary));
    assert_eq!(rt; dual_twice(alloc, &mut map), Err(fault));
    assert!(rt; map.polygon(alloc, 3).is_ok());
    for (side, other) in [(1, 7), (3, 9), (5, 11)] {
        assert!(rt; map.sew(alloc, 2, side, other).is_ok());
    }
    assert_eq!(rt; dual_twice(alloc, &mut map), Ok(()));
    Ok(())
}

/// The sides of the squares of a cube that are sewn to each other, for squares of darts 1 to 4, 5 to 8, and on.
const SEAMS: [(u64, u64); 12] = [
    (1, 21),
    (2, 17),
    (3, 13),
    (4, 9),
    (5, 11),
    (6, 15),
    (7, 19),
    (8, 23),
    (10, 16),
    (12, 22),
    (14, 20),
    (18, 24),
];

/// The dual of a cube, an octahedron, has a dual again.
#[test]
fn dual_of_a_cube(rt: HostRuntime) -> Result<(), AllocError> {
    let alloc = rt.alloc();
    let mut map = Map::<Beta, OrCopy, 2>::new(alloc, &OrCopy);
    for _square in 0..6 {
        assert!(rt; map.polygon(alloc, 4).is_ok());
    }
    for (side, other) in SEAMS {
        assert!(rt; map.sew(alloc, 2, side, other).is_ok());
    }
    assert_eq!(rt; dual_twice(alloc, &mut map), Ok(()));
    let counts = map.count(alloc)?;
    assert_eq!(rt; counts.as_slice(), [24, 8, 12, 6, 1].as_slice());
    Ok(())
}

/// A vertex, an edge and a dangling edge of a square.
#[test]
fn cutting_a_square(rt: HostRuntime) -> Result<(), AllocError> {
    let alloc = rt.alloc();
    let mut map = Map::<Alpha, OrCopy, 2>::new(alloc, &OrCopy);
    assert!(rt; map.polygon(alloc, 4).is_ok());
    let vertex = insert_then_remove(alloc, &mut map, &Insertion::Vertex(1));
    assert_eq!(rt; vertex, made(9, 2));
    let edge = insert_then_remove(alloc, &mut map, &Insertion::Edge(1, 5));
    assert_eq!(rt; edge, made(11, 4));
    let dangle = insert_then_remove(alloc, &mut map, &Insertion::Dangle(1));
    assert_eq!(rt; dangle, made(15, 4));
    Ok(())
}

/// A vertex of a triangle, in maps of both kinds.
#[test]
fn cutting_a_triangle(rt: HostRuntime) -> Result<(), AllocError> {
    let alloc = rt.alloc();
    let mut map = Map::<Alpha, OrCopy, 2>::new(alloc, &OrCopy);
    assert!(rt; map.polygon(alloc, 3).is_ok());
    let vertex = insert_then_remove(alloc, &mut map, &Insertion::Vertex(1));
    assert_eq!(rt; vertex, made(7, 2));
    let mut map = Map::<Beta, OrCopy, 2>::new(alloc, &OrCopy);
    assert!(rt; map.polygon(alloc, 3).is_ok());
    let vertex = insert_then_remove(alloc, &mut map, &Insertion::Vertex(1));
    assert_eq!(rt; vertex, made(4, 1));
    Ok(())
}

/// A face in the volume between two triangles.
#[test]
fn cutting_a_volume(rt: HostRuntime) -> Result<(), AllocError> {
    let alloc = rt.alloc();
    let mut map = Map::<Alpha, OrCopy, 3>::new(alloc, &OrCopy);
    assert!(rt; map.polygon(alloc, 3).is_ok());
    assert!(rt; map.polygon(alloc, 3).is_ok());
    for (side, other) in [(1, 7), (3, 9), (5, 11)] {
        assert!(rt; map.sew(alloc, 2, side, other).is_ok());
    }
    let path = vec![in alloc; 1, 3, 5]?;
    let face = insert_then_remove(alloc, &mut map, &Insertion::Face(path));
    assert_eq!(rt; face, made(13, 12));
    Ok(())
}

/// Edges and faces of two triangles have amounts. Their totals are the same after sewing, unsewing, a vertex and an edge.
#[test]
fn totals_of_two_triangles(rt: HostRuntime) -> Result<(), AllocError> {
    let alloc = rt.alloc();
    let mut map = Map::<Alpha, OrCopy, 2>::new(alloc, &OrCopy);
    assert!(rt; map.rule(alloc, 1, "sum", "share").is_ok());
    assert!(rt; map.rule(alloc, 2, "sum", "share").is_ok());
    assert!(rt; map.polygon(alloc, 3).is_ok());
    assert!(rt; map.polygon(alloc, 3).is_ok());
    assert!(rt; map.set(alloc, 1, 1, Value { a: 5, b: -7, c: 1 }).is_ok());
    assert!(rt; map.set(alloc, 1, 3, Value { a: 10, b: 0, c: 0 }).is_ok());
    assert!(rt; map.set(alloc, 1, 7, Value { a: 4, b: 2, c: -1 }).is_ok());
    assert!(rt; map.set(alloc, 2, 1, Value { a: 101, b: 3, c: 8 }).is_ok());
    let edges = Ok(Total { a: 19, b: -5, c: 0 });
    let faces = Ok(Total { a: 101, b: 3, c: 8 });
    assert_eq!(rt; total_of(alloc, &map, 1), edges);
    assert_eq!(rt; total_of(alloc, &map, 2), faces);
    assert!(rt; map.sew(alloc, 2, 1, 7).is_ok());
    assert_eq!(rt; total_of(alloc, &map, 1), edges);
    assert!(rt; map.unsew(alloc, 2, 1).is_ok());
    assert_eq!(rt; total_of(alloc, &map, 1), edges);
    assert!(rt; map.vertex(alloc, 1).is_ok());
    assert_eq!(rt; total_of(alloc, &map, 1), edges);
    // From the new corner to the corner over the side of dart 1.
    assert!(rt; map.edge(alloc, 13, 4).is_ok());
    assert_eq!(rt; total_of(alloc, &map, 1), edges);
    assert_eq!(rt; total_of(alloc, &map, 2), faces);
    let none = Ok(Total { a: 0, b: 0, c: 0 });
    assert_eq!(rt; total_of(alloc, &map, 0), none);
    assert_eq!(rt;
        total_of(alloc, &map, 3),
        Err(Refused::Line(Refusal::BadDim))
    );
    Ok(())
}

/// 64 bits need not hold a total: it is that of two edges with the greatest number there is.
#[test]
fn total_beyond_64_bits(rt: HostRuntime) -> Result<(), AllocError> {
    let alloc = rt.alloc();
    let mut map = Map::<Beta, OrCopy, 2>::new(alloc, &OrCopy);
    assert!(rt; map.rule(alloc, 1, "sum", "share").is_ok());
    assert!(rt; map.polygon(alloc, 3).is_ok());
    let most = Value {
        a: 9223372036854775807,
        b: -9223372036854775808,
        c: 0,
    };
    assert!(rt; map.set(alloc, 1, 1, most).is_ok());
    assert!(rt; map.set(alloc, 1, 2, most).is_ok());
    let both = Total {
        a: 18446744073709551614,
        b: -18446744073709551616,
        c: 0,
    };
    assert_eq!(rt; total_of(alloc, &map, 1), Ok(both));
    Ok(())
}
