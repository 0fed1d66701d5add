//! Vertices, edges and faces that are inserted.
use crate::harness::{Row, check_rows};
use std::alloc::AllocError;

const FLAT: [Row; 5] = [
    Row {
        script: "polygon 4\npolygon 4\nedge 1 8\nedge 1 9\n",
        text: "ok 1 8\nok 9 8\nno 9 SameCorner\nno 8 OtherCell\n",
        status: 1,
    },
    // the value of a face goes to both of its parts
    Row {
        script: "polygon 4\nrule 2 sum share\nset 2 1 7 0 0\nedge 1 4\nvalue 2 1\nvalue 2 5\n",
        text: "ok 1 8\nok\nok\nok 9 4\nvalue 4 0 0\nvalue 3 0 0\n",
        status: 0,
    },
    Row {
        script: "polygon 3\nvertex 1\nshow\nvertex 9\nvertex 0\nedge 7 4\ncount\n",
        text: "ok 1 6\nok 7 2\ncellmap 2 g 2 8 8\n1: 7 6 0\n2: 8 3 0\n3: 4 2 0\n4: 3 5 0\n5: 6 4 0\n6: 5 1 0\n7: 1 8 0\n8: 2 7 0\nend\n\
            no 3 NoDart\nno 3 NoDart\nok 9 4\ncount 12 4 5 1 1\n",
        status: 1,
    },
    // values on two triangles that are sewn
    Row {
        script: "polygon 3\npolygon 3\nrule 0 first copy\nrule 1 sum share\nrule 2 last keep\nset 1 1 9 0 1\nset 2 1 4 5 6\nsew 2 1 7\n\
            vertex 1\nvalue 1 1\nvalue 1 13\nedge 13 5\nvalue 2 5\nvalue 2 4\nedge 1 6\nedge 1 12\nedge 14 11\nshow\n",
        text: "ok 1 6\nok 7 6\nok\nok\nok\nok\nok\nok\nok 13 4\nvalue 5 0 1\nvalue 5 0 1\nok 17 4\nvalue 4 5 6\nvalue none\n\
            no 9 SameCorner\nno 8 OtherCell\nno 8 OtherCell\ncellmap 2 g 2 20 20\n1: 13 6 7\n2: 14 3 8\n3: 4 2 0\n4: 3 17 0\n\
            5: 6 18 0\n6: 5 1 0\n7: 15 12 1\n8: 16 9 2\n9: 10 8 0\n10: 9 11 0\n11: 12 10 0\n12: 11 7 0\n13: 1 19 15\n\
            14: 2 20 16\n15: 7 16 13\n16: 8 15 14\n17: 20 4 18\n18: 19 5 17\n19: 18 13 20\n20: 17 14 19\nrule 0 first copy\n\
            rule 1 sum share\nrule 2 last keep\nval 1 1 5 0 1\nval 1 2 4 0 0\nval 2 1 4 5 6\nend\n",
        status: 1,
    },
    // there is no volume in dimension 2
    Row {
        script: "face 1\n",
        text: "no 2 BadDim\n",
        status: 1,
    },
];

const SOLID: [Row; 1] = [
    // a square that is folded on itself is one side of a volume
    Row {
        script: "polygon 4\nsew 3 1 2\nedge 1 4\nface 1\nface 1 99\nface 1 3 5 7\ncount\n",
        text: "ok 1 8\nok\nok 9 8\nno 10 NotClosed\nno 3 NoDart\nok 17 8\ncount 24 2 4 2 1 1\n",
        status: 1,
    },
];

#[test]
fn insertions_in_dimension_2(rt: HostRuntime) -> Result<(), AllocError> {
    check_rows(&rt, rt.alloc(), "g", "2", &FLAT)
}

#[test]
fn insertions_in_dimension_3(rt: HostRuntime) -> Result<(), AllocError> {
    check_rows(&rt, rt.alloc(), "g", "3", &SOLID)
}
