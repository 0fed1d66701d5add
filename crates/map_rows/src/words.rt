//! The words of a script line: blanks, line ends, bytes that are no words, and numerals.
use crate::harness::{Row, check_rows, obey};
use std::alloc::AllocError;

const ROWS: [Row; 14] = [
    Row {
        script: " \t polygon\t\r3  \r\n",
        text: "ok 1 6\n",
        status: 0,
    },
    Row {
        script: "\n\r\n \t\r\n\npolygon 3\n\n",
        text: "ok 1 6\n",
        status: 0,
    },
    Row {
        script: "polygon 03\n",
        text: "no 1 Syntax\n",
        status: 1,
    },
    Row {
        script: "polygon 00\n",
        text: "no 1 Syntax\n",
        status: 1,
    },
    Row {
        script: "polygon 10000000000000000000\n",
        text: "no 1 Syntax\n",
        status: 1,
    },
    Row {
        script: "polygon 1000000000000000000\n",
        text: "no 16 BadCount\n",
        status: 1,
    },
    Row {
        script: "polygon +3\npolygon -3\npolygon 3.0\n",
        text: "no 1 Syntax\nno 1 Syntax\nno 1 Syntax\n",
        status: 1,
    },
    Row {
        script: "polygon\npolygon 3 4\nshow 3\n",
        text: "no 1 Syntax\nno 1 Syntax\nno 1 Syntax\n",
        status: 1,
    },
    Row {
        script: "Polygon 3\npolygons 3\npolygo 3\nSHOW\n",
        text: "no 1 Syntax\nno 1 Syntax\nno 1 Syntax\nno 1 Syntax\n",
        status: 1,
    },
    Row {
        script: "polygon 3 # a triangle\n# a comment\n#\nshow# \u{7f} show\n",
        text: "ok 1 6\ncellmap 2 g 2 6 6\n1: 2 6 0\n2: 1 3 0\n3: 4 2 0\n4: 3 5 0\n5: 6 4 0\n6: 5 1 0\nend\n",
        status: 0,
    },
    Row {
        script: "polygon\u{b}3\npolygon \u{0}3\nshow\u{7f}\nsh\u{f6}w\n",
        text: "no 1 Syntax\nno 1 Syntax\nno 1 Syntax\nno 1 Syntax\n",
        status: 1,
    },
    Row {
        script: "polygon\n3\n",
        text: "no 1 Syntax\nno 1 Syntax\n",
        status: 1,
    },
    Row {
        script: "   ",
        text: "",
        status: 0,
    },
    Row {
        script: "show",
        text: "cellmap 2 g 2 0 0\nend\n",
        status: 0,
    },
];

#[test]
fn words_of_lines(rt: HostRuntime) -> Result<(), AllocError> {
    check_rows(&rt, rt.alloc(), "g", "2", &ROWS)
}

/// A script may have 16,777,216 bytes and no more.
#[test]
fn limit_of_a_file(rt: HostRuntime) -> Result<(), AllocError> {
    let mut script = vec![in rt.alloc(); b' '; 16_777_216]?;
    let answer = obey(rt.alloc(), "g", "2", script.clone()?)?;
    assert_eq!(rt; answer.text.len(), 0);
    assert_eq!(rt; answer.status, 0);
    script.push(b' ')?;
    let answer = obey(rt.alloc(), "g", "2", script)?;
    assert_eq!(rt; answer.text.as_slice(), b"too long\n".as_slice());
    assert_eq!(rt; answer.status, 4);
    Ok(())
}
