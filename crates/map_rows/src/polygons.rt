//! Polygons and their listing: what a script of `polygon` and `show` lines writes.
use crate::harness::{Row, check_rows, obey};
use std::alloc::AllocError;

const ROWS: [Row; 8] = [
    Row {
        script: "",
        text: "",
        status: 0,
    },
    Row {
        script: "show\n",
        text: "cellmap 2 g 2 0 0\nend\n",
        status: 0,
    },
    Row {
        script: "polygon 3\nshow\n",
        text: "ok 1 6\ncellmap 2 g 2 6 6\n1: 2 6 0\n2: 1 3 0\n3: 4 2 0\n4: 3 5 0\n5: 6 4 0\n6: 5 1 0\nend\n",
        status: 0,
    },
    Row {
        script: "polygon 4\npolygon 3\nshow\n",
        text: "ok 1 8\nok 9 6\ncellmap 2 g 2 14 14\n\
            1: 2 8 0\n2: 1 3 0\n3: 4 2 0\n4: 3 5 0\n5: 6 4 0\n6: 5 7 0\n7: 8 6 0\n8: 7 1 0\n\
            9: 10 14 0\n10: 9 11 0\n11: 12 10 0\n12: 11 13 0\n13: 14 12 0\n14: 13 9 0\nend\n",
        status: 0,
    },
    Row {
        script: "polygon 2\npolygon 65537\npolygon 3\n",
        text: "no 16 BadCount\nno 16 BadCount\nok 1 6\n",
        status: 1,
    },
    Row {
        script: "polygon 65536\npolygon 9999999999999999999\n",
        text: "ok 1 131072\nno 16 BadCount\n",
        status: 1,
    },
    Row {
        script: "polygon 3\npolygon 0\nfly\nshow\n",
        text: "ok 1 6\nno 16 BadCount\nno 1 Syntax\n\
            cellmap 2 g 2 6 6\n1: 2 6 0\n2: 1 3 0\n3: 4 2 0\n4: 3 5 0\n5: 6 4 0\n6: 5 1 0\nend\n",
        status: 1,
    },
    Row {
        script: "polygon 3",
        text: "ok 1 6\n",
        status: 0,
    },
];

#[test]
fn polygons_and_their_listing(rt: HostRuntime) -> Result<(), AllocError> {
    check_rows(&rt, rt.alloc(), "g", "2", &ROWS)
}

/// 32 polygons of 65,536 sides make all the darts that are ever made, and the next polygon is one too many.
#[test]
fn fills_the_map(rt: HostRuntime) -> Result<(), AllocError> {
    let mut script = Vec::new(rt.alloc());
    for _ in 0..32 {
        script.extend_from_slice(b"polygon 65536\n")?;
    }
    script.extend_from_slice(b"polygon 2\npolygon 3\n")?;
    let answer = obey(rt.alloc(), "g", "2", script)?;
    assert!(rt; answer.text.starts_with(b"ok 1 131072\nok 131073 131072\n"));
    assert!(rt;
        answer.text.ends_with(b"ok 3932161 131072\nok 4063233 131072\nno 16 BadCount\nno 21 Full\n")
    );
    assert_eq!(rt; answer.status, 1);
    Ok(())
}
