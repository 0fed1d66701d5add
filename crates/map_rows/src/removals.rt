//! Cells that are removed and contracted, and duals.
use crate::harness::{Row, check_rows};
use crate::meshes::{CUBE, MeshRow, check_meshes};
use std::alloc::AllocError;

const FLAT: [Row; 7] = [
    // a vertex that was put on an edge
    Row {
        script: "polygon 3\nvertex 1\nremove 0 7\nshow\n",
        text: "ok 1 6\nok 7 2\nok\ncellmap 2 g 2 8 6\n1: 2 6 0\n2: 1 3 0\n3: 4 2 0\n4: 3 5 0\n5: 6 4 0\n6: 5 1 0\nend\n",
        status: 0,
    },
    // two faces become one, with the sum of their values, or with that of the later piece
    Row {
        script: "polygon 4\nrule 2 sum share\nset 2 1 7 0 0\nedge 1 4\nremove 1 9\nvalue 2 1\n",
        text: "ok 1 8\nok\nok\nok 9 4\nok\nvalue 7 0 0\n",
        status: 0,
    },
    Row {
        script: "polygon 4\nrule 2 sum share\nset 2 1 7 0 0\nedge 1 4\nrule 2 last copy\nremove 1 9\nvalue 2 1\n",
        text: "ok 1 8\nok\nok\nok 9 4\nok\nok\nvalue 3 0 0\n",
        status: 0,
    },
    // no map with a free link has a dual
    Row {
        script: "polygon 3\ndual\n",
        text: "ok 1 6\nno 14 Boundary\n",
        status: 1,
    },
    // two walks come back to their own dart
    Row {
        script: "polygon 3\nsew 2 1 4\nremove 0 2\nshow\n",
        text: "ok 1 6\nok\nok\ncellmap 2 g 2 6 4\n1: 4 6 4\n4: 1 5 1\n5: 6 4 0\n6: 5 1 0\nend\n",
        status: 0,
    },
    Row {
        script: "same 0 1 6\npolygon 3\nsame 0 1 6\nsame 0 1 2\nfree 2 1\nsewable 2 1 2\nsewable 2 1 1\nremovable 0 1\ncontractible 0 1\nvalue 0 1\n",
        text: "no 3 NoDart\nok 1 6\ntrue\nfalse\ntrue\ntrue\nfalse\ntrue\nfalse\nvalue none\n",
        status: 1,
    },
    Row {
        script: "remove 3 1\nremove 0 1\ncontract 3 1\ncontract 0 1\nremovable 3 1\ncontractible 0 9\n",
        text: "no 2 BadDim\nno 3 NoDart\nno 2 BadDim\nno 3 NoDart\nno 2 BadDim\nno 3 NoDart\n",
        status: 1,
    },
];

const CUBES: [MeshRow; 3] = [
    // a corner of degree three stays, and an edge is contracted
    MeshRow {
        mesh: CUBE,
        script: "remove 0 1\ncontract 0 1\ncontract 1 1\ncount\nvalue 0 3\n",
        text: "no 12 NotRemovable\nno 13 NotContractible\nok\ncount 44 7 11 6 1\nvalue 0 2 0\n",
        status: 1,
    },
    MeshRow {
        mesh: CUBE,
        script: "dual\ncount\ndual\n",
        text: "ok\ncount 48 6 12 8 1\nok\n",
        status: 0,
    },
    // the values and the rules go with the cells
    MeshRow {
        mesh: CUBE,
        script: "value 0 1\nrule 1 sum keep\nset 1 1 3 4 5\ndual\nvalue 2 1\nvalue 1 1\nvalue 0 1\nset 2 1 7 7 7\ndual\nvalue 0 1\nvalue 1 1\n",
        text: "value 0 0 0\nok\nok\nok\nvalue 0 0 0\nvalue 3 4 5\nvalue none\nok\nok\nvalue 7 7 7\nvalue 3 4 5\n",
        status: 0,
    },
];

const SOLID: [MeshRow; 1] = [
    // a wall through a cube, and away again
    MeshRow {
        mesh: CUBE,
        script: "face 17 19 21 23\ncount\nremove 2 49\ncount\n",
        text: "ok 49 16\ncount 64 8 12 7 2 1\nok\ncount 48 8 12 6 1 1\n",
        status: 0,
    },
];

#[test]
fn removals_in_dimension_2(rt: HostRuntime) -> Result<(), AllocError> {
    check_rows(&rt, rt.alloc(), "g", "2", &FLAT)
}

#[test]
fn removals_from_a_cube(rt: HostRuntime) -> Result<(), AllocError> {
    check_meshes(&rt, rt.alloc(), "g", "2", &CUBES)
}

#[test]
fn removal_of_a_wall(rt: HostRuntime) -> Result<(), AllocError> {
    check_meshes(&rt, rt.alloc(), "g", "3", &SOLID)
}
