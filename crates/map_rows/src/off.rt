//! The OFF text of a map.
use crate::harness::{Row, check_rows};
use crate::meshes::{CUBE, MeshRow, check_meshes};
use std::alloc::AllocError;

const GENERALIZED: [Row; 3] = [
    // the map without darts
    Row {
        script: "off\n",
        text: "OFF\n0 0 0\n",
        status: 0,
    },
    // 0-cells without points
    Row {
        script: "polygon 2\npolygon 3\ndel 1\ndart\ndel 7\ndel 7\nsew 3 1 2\nset 0 1 1 1 1\nunsew 2 1\nfly\noff\n",
        text: "no 16 BadCount\nok 1 6\nno 15 Linked\nok 7 1\nok\nno 3 NoDart\nno 2 BadDim\nno 4 NoRule\nno 7 AlreadyFree\nno 1 Syntax\nno 19 NoPoint\n",
        status: 1,
    },
    // a face of two sides, and a dart alone, which is an open face
    Row {
        script: "polygon 3\nrule 0 first copy\nremove 0 1\nset 0 2 0 0 0\nset 0 4 1 0 0\noff\ndart\noff\nclear 0 2\nclear 0 2\nvalue 0 3\n",
        text: "ok 1 6\nok\nok\nok\nok\nno 20 ThinFace\nok 7 1\nno 10 NotClosed\nok\nok\nvalue none\n",
        status: 1,
    },
];

const COMBINATORIAL: [Row; 2] = [
    // the map without darts
    Row {
        script: "off\n",
        text: "OFF\n0 0 0\n",
        status: 0,
    },
    // a face of two sides, and a dart alone, which is an open face
    Row {
        script: "polygon 3\nrule 0 first copy\nremove 0 1\nset 0 2 0 0 0\nset 0 3 1 0 0\noff\ndart\noff\nclear 0 2\noff\ndel 4\noff\n",
        text: "ok 1 3\nok\nok\nok\nok\nno 20 ThinFace\nok 4 1\nno 10 NotClosed\nok\nno 10 NotClosed\nok\nno 19 NoPoint\n",
        status: 1,
    },
];

const GENERALIZED_MESHES: [MeshRow; 3] = [
    // a triangle
    MeshRow {
        mesh: "OFF\n3 1 3\n0 0 0\n4 0 0\n0 3 0\n3 0 1 2\n",
        script: "off\n",
        text: "OFF\n3 1 3\n0 0 0\n4 0 0\n0 3 0\n3 0 1 2\n",
        status: 0,
    },
    // a cube, and a cube that is cut along an edge, whose ends stay whole
    MeshRow {
        mesh: CUBE,
        script: "off\nunsew 2 1\noff\n",
        text: "OFF\n8 6 12\n0 0 0\n0 2 0\n2 2 0\n2 0 0\n0 0 2\n2 0 2\n2 2 2\n0 2 2\n4 0 1 2 3\n4 4 5 6 7\n4 0 3 5 4\n4 3 2 6 5\n4 2 1 7 6\n4 1 0 4 7\nok\nOFF\n8 6 13\n0 0 0\n0 2 0\n2 2 0\n2 0 0\n0 0 2\n2 0 2\n2 2 2\n0 2 2\n4 0 1 2 3\n4 4 5 6 7\n4 0 3 5 4\n4 3 2 6 5\n4 2 1 7 6\n4 1 0 4 7\n",
        status: 0,
    },
    // the text of the cube that is cut along an edge, which is whole again when it is read
    MeshRow {
        mesh: "OFF\n8 6 13\n0 0 0\n0 2 0\n2 2 0\n2 0 0\n0 0 2\n2 0 2\n2 2 2\n0 2 2\n4 0 1 2 3\n4 4 5 6 7\n4 0 3 5 4\n4 3 2 6 5\n4 2 1 7 6\n4 1 0 4 7\n",
        script: "count\n",
        text: "count 48 8 12 6 1\n",
        status: 0,
    },
];

const COMBINATORIAL_MESHES: [MeshRow; 3] = [
    // a triangle
    MeshRow {
        mesh: "OFF\n3 1 3\n0 0 0\n4 0 0\n0 3 0\n3 0 1 2\n",
        script: "off\n",
        text: "OFF\n3 1 3\n0 0 0\n4 0 0\n0 3 0\n3 0 1 2\n",
        status: 0,
    },
    // a cube, and a cube that is cut along an edge, whose ends stay whole
    MeshRow {
        mesh: CUBE,
        script: "off\nunsew 2 1\noff\n",
        text: "OFF\n8 6 12\n0 0 0\n0 2 0\n2 2 0\n2 0 0\n0 0 2\n2 0 2\n2 2 2\n0 2 2\n4 0 1 2 3\n4 4 5 6 7\n4 0 3 5 4\n4 3 2 6 5\n4 2 1 7 6\n4 1 0 4 7\nok\nOFF\n8 6 13\n0 0 0\n0 2 0\n2 2 0\n2 0 0\n0 0 2\n2 0 2\n2 2 2\n0 2 2\n4 0 1 2 3\n4 4 5 6 7\n4 0 3 5 4\n4 3 2 6 5\n4 2 1 7 6\n4 1 0 4 7\n",
        status: 0,
    },
    // the text of the cube that is cut along an edge, which is whole again when it is read
    MeshRow {
        mesh: "OFF\n8 6 13\n0 0 0\n0 2 0\n2 2 0\n2 0 0\n0 0 2\n2 0 2\n2 2 2\n0 2 2\n4 0 1 2 3\n4 4 5 6 7\n4 0 3 5 4\n4 3 2 6 5\n4 2 1 7 6\n4 1 0 4 7\n",
        script: "count\n",
        text: "count 24 8 12 6 1\n",
        status: 0,
    },
];

#[test]
fn off_text_of_generalized_maps(rt: HostRuntime) -> Result<(), AllocError> {
    check_rows(&rt, rt.alloc(), "g", "2", &GENERALIZED)?;
    check_meshes(&rt, rt.alloc(), "g", "2", &GENERALIZED_MESHES)
}

#[test]
fn off_text_of_combinatorial_maps(rt: HostRuntime) -> Result<(), AllocError> {
    check_rows(&rt, rt.alloc(), "c", "2", &COMBINATORIAL)?;
    check_meshes(&rt, rt.alloc(), "c", "2", &COMBINATORIAL_MESHES)
}
