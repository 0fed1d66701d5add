//! Closing a boundary, dangling edges, and vertices in the middle of faces.
use crate::harness::{Row, check_rows};
use std::alloc::AllocError;

const FLAT: [Row; 5] = [
    // a triangle that is closed is a sphere, and has a dual
    Row {
        script: "polygon 3\nclose 2\ncount\ndual\ncount\n",
        text: "ok 1 6\nok 7 6\ncount 12 3 3 2 1\nok\ncount 12 2 3 3 1\n",
        status: 0,
    },
    // a dangling edge is an edge that can be removed again
    Row {
        script: "polygon 3\ndangle 1\ncount\nremove 1 7\ncount\ncenter 1\ncount\n",
        text: "ok 1 6\nok 7 4\ncount 10 4 4 1 1\nok\ncount 6 3 3 1 1\nok 11 12\ncount 18 4 6 3 1\n",
        status: 0,
    },
    // an open face has no middle; its corner has an edge, and the lower links are closed one after another
    Row {
        script: "dart\ncenter 1\ndangle 1\nclose 3\nclose 0\nclose 1\ncount\n",
        text: "ok 1 1\nno 10 NotClosed\nok 2 2\nno 2 BadDim\nok 4 1\nok 5 2\ncount 6 3 3 1 1\n",
        status: 1,
    },
    // nothing is open
    Row {
        script: "close 2\nmark a\npolygon 3\nclose 2\nclose 2\nundo a\nredo a\ncount\n",
        text: "ok\nok\nok 1 6\nok 7 6\nok\nok\nok\ncount 12 3 3 2 1\n",
        status: 0,
    },
    // the value of a face is dealt out to its triangles
    Row {
        script: "polygon 3\nrule 2 sum share\nset 2 1 7 0 -7\ncenter 1\nvalue 2 1\nvalue 2 3\nvalue 2 5\nrule 1 first copy\n\
            set 1 1 1 1 1\ndangle 1\nvalue 1 1\nshow\n",
        text: "ok 1 6\nok\nok\nok 7 12\nvalue 3 0 -2\nvalue 2 0 -2\nvalue 2 0 -3\nok\nok\nok 19 4\nvalue 1 1 1\ncellmap 2 g 2 22 22\n\
            1: 2 19 0\n2: 1 8 0\n3: 4 9 0\n4: 3 10 0\n5: 6 11 0\n6: 5 12 0\n7: 13 20 12\n8: 14 2 9\n9: 15 3 8\n10: 16 4 11\n\
            11: 17 5 10\n12: 18 6 7\n13: 7 14 18\n14: 8 13 15\n15: 9 16 14\n16: 10 15 17\n17: 11 18 16\n18: 12 17 13\n\
            19: 21 1 20\n20: 22 7 19\n21: 19 22 22\n22: 20 21 21\nrule 1 first copy\nrule 2 sum share\nval 1 1 1 1 1\n\
            val 2 1 3 0 -2\nval 2 3 2 0 -2\nval 2 5 2 0 -3\nend\n",
        status: 0,
    },
];

const COMBINATORIAL: [Row; 3] = [
    // both sides of a square, and a vertex in the middle of one
    Row {
        script: "polygon 4\nclose 2\ncenter 1\ncount\n",
        text: "ok 1 4\nok 5 4\nok 9 8\ncount 16 5 8 5 1\n",
        status: 0,
    },
    // no side leads into the corner, and links 0 and 1 are none at which such a map is closed
    Row {
        script: "dart\ndangle 1\nclose 1\nclose 0\nclose 3\ncenter 2\ndangle 0\n",
        text: "ok 1 1\nno 11 Unpaired\nno 2 BadDim\nno 2 BadDim\nno 2 BadDim\nno 3 NoDart\nno 3 NoDart\n",
        status: 1,
    },
    // a boundary that meets itself at a vertex
    Row {
        script: "polygon 3\npolygon 3\npolygon 3\npolygon 3\nsew 2 3 4\nsew 2 2 12\nsew 2 9 10\nsew 2 5 8\nclose 2\ncount\n",
        text: "ok 1 3\nok 4 3\nok 7 3\nok 10 3\nok\nok\nok\nok\nok 13 4\ncount 16 4 8 6 1\n",
        status: 0,
    },
];

const SOLID: [Row; 1] = [
    // a face between two volumes, and all that is beyond it
    Row {
        script: "polygon 3\nclose 3\nclose 2\ncount\n",
        text: "ok 1 6\nok 7 6\nok 13 12\ncount 24 3 3 3 2 1\n",
        status: 0,
    },
];

#[test]
fn closings_in_dimension_2(rt: HostRuntime) -> Result<(), AllocError> {
    check_rows(&rt, rt.alloc(), "g", "2", &FLAT)
}

#[test]
fn closings_of_combinatorial_maps(rt: HostRuntime) -> Result<(), AllocError> {
    check_rows(&rt, rt.alloc(), "c", "2", &COMBINATORIAL)
}

#[test]
fn closings_in_dimension_3(rt: HostRuntime) -> Result<(), AllocError> {
    check_rows(&rt, rt.alloc(), "g", "3", &SOLID)
}
