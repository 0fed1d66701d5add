//! Darts, cells, and sewing, in maps of dimension 2 to 4.
use crate::harness::{Row, check_rows};
use std::alloc::AllocError;

const FLAT: [Row; 5] = [
    Row {
        script: "polygon 3\npolygon 3\nsew 2 1 7\nsew 2 1 9\ncell 1 1\nfree 2 2\n",
        text: "ok 1 6\nok 7 6\nok\nno 5 NotFree\ncell 1 2 7 8\nfalse\n",
        status: 1,
    },
    // an edge that is folded on itself
    Row {
        script: "polygon 3\nsew 2 1 1\nsew 2 1 2\ncount\n",
        text: "ok 1 6\nno 6 Unsewable\nok\ncount 6 2 3 1 1\n",
        status: 1,
    },
    Row {
        script: "same 0 1 6\npolygon 3\nsame 0 1 6\nsame 0 1 2\nfree 2 1\nsewable 2 1 2\nsewable 2 1 1\n",
        text: "no 3 NoDart\nok 1 6\ntrue\nfalse\ntrue\ntrue\nfalse\n",
        status: 1,
    },
    Row {
        script: "polygon 2\npolygon 3\ndel 1\ndart\ndel 7\ndel 7\nsew 3 1 2\nunsew 2 1\nfly\n",
        text: "no 16 BadCount\nok 1 6\nno 15 Linked\nok 7 1\nok\nno 3 NoDart\nno 2 BadDim\nno 7 AlreadyFree\nno 1 Syntax\n",
        status: 1,
    },
    // a refused line changes nothing
    Row {
        script: "polygon 3\nunsew 0 1\nshow\nunsew 2 3\nsew 2 4 9\nsew 0 3 4\nshow\n",
        text: "ok 1 6\nok\ncellmap 2 g 2 6 6\n1: 0 6 0\n2: 0 3 0\n3: 4 2 0\n4: 3 5 0\n5: 6 4 0\n6: 5 1 0\nend\n\
            no 7 AlreadyFree\nno 3 NoDart\nno 5 NotFree\n\
            cellmap 2 g 2 6 6\n1: 0 6 0\n2: 0 3 0\n3: 4 2 0\n4: 3 5 0\n5: 6 4 0\n6: 5 1 0\nend\n",
        status: 1,
    },
];

const SOLID: [Row; 2] = [
    Row {
        script: "polygon 3\ndart\ndel 7\ndel 1\ncell 0 1\nfree 1 1\nsame 2 1 6\ncount\n",
        text: "ok 1 6\nok 7 1\nok\nno 15 Linked\ncell 1 6\nfalse\ntrue\ncount 6 3 3 1 1 1\n",
        status: 1,
    },
    // the first pairing would have order 3, the second turns the triangle over
    Row {
        script: "polygon 3\nsew 3 1 3\nsewable 3 1 2\nunsew 3 1\nsew 3 1 2\nshow\n",
        text: "ok 1 6\nno 6 Unsewable\ntrue\nno 7 AlreadyFree\nok\n\
            cellmap 2 g 3 6 6\n1: 2 6 0 2\n2: 1 3 0 1\n3: 4 2 0 6\n4: 3 5 0 5\n5: 6 4 0 4\n6: 5 1 0 3\nend\n",
        status: 1,
    },
];

const FOUR: [Row; 1] = [Row {
    script: "polygon 3\npolygon 3\nsew 4 1 7\nsew 3 1 7\nsew 3 1 1\ncount\ncell 4 3\ncell 3 3\nunsew 4 9\ncount\n",
    text: "ok 1 6\nok 7 6\nok\nok\nno 5 NotFree\ncount 12 3 3 1 1 1 1\ncell 1 2 3 4 5 6 7 8 9 10 11 12\n\
        cell 1 2 3 4 5 6 7 8 9 10 11 12\nok\ncount 12 3 3 1 2 1 1\n",
    status: 1,
}];

#[test]
fn lines_in_dimension_2(rt: HostRuntime) -> Result<(), AllocError> {
    check_rows(&rt, rt.alloc(), "g", "2", &FLAT)
}

#[test]
fn lines_in_dimension_3(rt: HostRuntime) -> Result<(), AllocError> {
    check_rows(&rt, rt.alloc(), "g", "3", &SOLID)
}

#[test]
fn lines_in_dimension_4(rt: HostRuntime) -> Result<(), AllocError> {
    check_rows(&rt, rt.alloc(), "g", "4", &FOUR)
}
