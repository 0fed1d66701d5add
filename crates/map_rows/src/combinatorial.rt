//! Combinatorial maps: every line, in dimension 2 to 4.
use crate::harness::{Row, check_rows};
use crate::meshes::{CUBE, MeshRow, check_meshes};
use std::alloc::AllocError;

const FLAT: [Row; 14] = [
    Row {
        script: "polygon 3\npolygon 4\npolygon 2\nshow\n",
        text: "ok 1 3\nok 4 4\nno 16 BadCount\ncellmap 2 c 2 7 7\n1: 3 2 0\n2: 1 3 0\n3: 2 1 0\n4: 7 5 0\n5: 4 6 0\n6: 5 7 0\n\
            7: 6 4 0\nend\n",
        status: 1,
    },
    // the inverse of link 1 is link 0
    Row {
        script: "dart\ndart\nsew 0 1 2\nsew 1 1 2\nfree 0 2\nfree 1 2\nshow\nunsew 1 1\nunsew 1 1\n",
        text: "ok 1 1\nok 2 1\nno 2 BadDim\nok\nfalse\ntrue\ncellmap 2 c 2 2 2\n1: 0 2 0\n2: 1 0 0\nend\nok\nno 7 AlreadyFree\n",
        status: 1,
    },
    // a cell of a dart alone, and the vertex of a dart whose links are free
    Row {
        script: "dart\ncell 0 1\nsame 0 1 1\nfree 2 1\ndel 1\ncell 0 1\n",
        text: "ok 1 1\ncell 1\ntrue\ntrue\nok\nno 3 NoDart\n",
        status: 1,
    },
    // values that merge where two squares are sewn, and are shared where they come apart
    Row {
        script: "polygon 4\npolygon 4\nrule 0 sum share\nset 0 1 5 0 0\nset 0 6 2 0 0\nsew 2 1 5\ncell 0 1\nvalue 0 1\n\
            unsew 2 1\nvalue 0 1\nvalue 0 6\n",
        text: "ok 1 4\nok 5 4\nok\nok\nok\nok\ncell 1 6\nvalue 7 0 0\nok\nvalue 4 0 0\nvalue 3 0 0\n",
        status: 0,
    },
    // edges run in opposite directions
    Row {
        script: "polygon 3\npolygon 3\nsew 2 1 1\nsewable 2 1 4\nsew 2 1 4\nsew 2 1 5\nsame 0 1 5\nsame 0 1 4\ncell 1 4\ncount\n\
            show\n",
        text: "ok 1 3\nok 4 3\nno 6 Unsewable\ntrue\nok\nno 5 NotFree\ntrue\nfalse\ncell 1 4\ncount 6 4 5 2 1\n\
            cellmap 2 c 2 6 6\n1: 3 2 4\n2: 1 3 0\n3: 2 1 0\n4: 6 5 1\n5: 4 6 0\n6: 5 4 0\nend\n",
        status: 1,
    },
    // a face across which an edge is put, the new darts on its two sides
    Row {
        script: "polygon 4\nedge 1 3\nshow\nremove 1 5\nshow\n",
        text: "ok 1 4\nok 5 2\ncellmap 2 c 2 6 6\n1: 6 2 0\n2: 1 6 0\n3: 5 4 0\n4: 3 5 0\n5: 4 3 6\n6: 2 1 5\nend\nok\n\
            cellmap 2 c 2 6 4\n1: 4 2 0\n2: 1 3 0\n3: 2 4 0\n4: 3 1 0\nend\n",
        status: 0,
    },
    // corners that are one, and darts of two faces
    Row {
        script: "polygon 4\npolygon 3\nedge 1 1\nedge 1 5\nedge 1 2\nedge 9 1\ncount\n",
        text: "ok 1 4\nok 5 3\nno 9 SameCorner\nno 8 OtherCell\nok 8 2\nok 10 2\ncount 11 7 9 4 2\n",
        status: 1,
    },
    // a vertex on an edge between two faces: the first dart keeps its begin
    Row {
        script: "polygon 3\npolygon 3\nsew 2 1 4\nvertex 1\nshow\nremovable 0 7\ncontractible 2 1\ncontract 1 7\ncount\n",
        text: "ok 1 3\nok 4 3\nok\nok 7 2\ncellmap 2 c 2 8 8\n1: 3 7 8\n2: 7 3 0\n3: 2 1 0\n4: 6 8 7\n5: 8 6 0\n6: 5 4 0\n\
            7: 1 2 4\n8: 4 5 1\nend\ntrue\nfalse\nok\ncount 6 4 5 2 1\n",
        status: 0,
    },
    // a vertex that cannot go: link 2 joins sides that follow each other
    Row {
        script: "polygon 3\nsew 2 1 2\nremove 0 2\nremovable 0 3\nremove 0 3\nshow\n",
        text: "ok 1 3\nok\nno 12 NotRemovable\nfalse\nno 12 NotRemovable\ncellmap 2 c 2 3 3\n1: 3 2 2\n2: 1 3 1\n3: 2 1 0\n\
            end\n",
        status: 1,
    },
    // a triangle that becomes a face of two sides, which is contracted
    Row {
        script: "polygon 3\npolygon 3\npolygon 3\nsew 2 1 4\nsew 2 3 7\ncontractible 2 1\ncontract 1 2\ncontractible 2 1\n\
            contract 2 1\ncontract 2 4\nshow\n",
        text: "ok 1 3\nok 4 3\nok 7 3\nok\nok\nfalse\nok\ntrue\nok\nno 13 NotContractible\ncellmap 2 c 2 9 6\n4: 6 5 7\n\
            5: 4 6 0\n6: 5 4 0\n7: 9 8 4\n8: 7 9 0\n9: 8 7 0\nend\n",
        status: 1,
    },
    // an edge that is contracted takes its value along, and the faces keep theirs
    Row {
        script: "polygon 4\nrule 1 first copy\nrule 2 sum share\nset 1 2 7 0 0\nset 2 1 3 0 0\ncontract 1 2\nvalue 1 1\n\
            value 2 1\nshow\n",
        text: "ok 1 4\nok\nok\nok\nok\nok\nvalue none\nvalue 3 0 0\ncellmap 2 c 2 4 3\n1: 4 3 0\n3: 1 4 0\n4: 3 1 0\n\
            rule 1 first copy\nrule 2 sum share\nval 2 1 3 0 0\nend\n",
        status: 0,
    },
    // going back over a vertex and an edge
    Row {
        script: "polygon 4\nmark a\nvertex 1\nmark b\nedge 1 3\nlog b\nlog a\nundo b\nshow\nundo a\nshow\n",
        text: "ok 1 4\nok\nok 5 1\nok\nok 6 2\nlog 1\nstep 1\nborn 6 2\nlink 1 0 4 7\nlink 2 1 3 7\nlink 3 0 2 6\n\
            link 4 1 1 6\nlink 6 0 0 4\nlink 6 1 0 3\nlink 6 2 0 7\nlink 7 0 0 2\nlink 7 1 0 1\nlink 7 2 0 6\nend\nlog 2\n\
            step 1\nborn 5 1\nlink 1 1 2 5\nlink 2 0 1 5\nlink 5 0 0 1\nlink 5 1 0 2\nstep 2\nborn 6 2\nlink 1 0 4 7\n\
            link 2 1 3 7\nlink 3 0 2 6\nlink 4 1 1 6\nlink 6 0 0 4\nlink 6 1 0 3\nlink 6 2 0 7\nlink 7 0 0 2\nlink 7 1 0 1\n\
            link 7 2 0 6\nend\nok\ncellmap 2 c 2 5 5\n1: 4 5 0\n2: 5 3 0\n3: 2 4 0\n4: 3 1 0\n5: 1 2 0\nmark a\nmark b\nend\n\
            ok\ncellmap 2 c 2 4 4\n1: 4 2 0\n2: 1 3 0\n3: 2 4 0\n4: 3 1 0\nmark a\nend\n",
        status: 0,
    },
    // an open map has no dual
    Row {
        script: "polygon 3\ndual\nsew 2 1 2\ndual\ndel 1\n",
        text: "ok 1 3\nno 14 Boundary\nok\nno 14 Boundary\nno 15 Linked\n",
        status: 1,
    },
    // a map whose dual joins no dart to itself, and its dual again
    Row {
        script: "polygon 4\npolygon 4\nsew 2 1 5\nsew 2 2 8\nsew 2 3 7\nsew 2 4 6\nmark a\ndual\ncount\nlog a\ndual\nshow\n",
        text: "ok 1 4\nok 5 4\nok\nok\nok\nok\nok\nok\ncount 8 2 4 4 1\nlog 1\nstep 1\nlink 1 0 4 6\nlink 1 1 2 6\n\
            link 2 0 1 5\nlink 2 1 3 5\nlink 3 0 2 8\nlink 3 1 4 8\nlink 4 0 3 7\nlink 4 1 1 7\nlink 5 0 8 2\nlink 5 1 6 2\n\
            link 6 0 5 1\nlink 6 1 7 1\nlink 7 0 6 4\nlink 7 1 8 4\nlink 8 0 7 3\nlink 8 1 5 3\nend\nok\ncellmap 2 c 2 8 8\n\
            1: 4 2 5\n2: 1 3 8\n3: 2 4 7\n4: 3 1 6\n5: 8 6 1\n6: 5 7 4\n7: 6 8 3\n8: 7 5 2\nmark a\nend\n",
        status: 0,
    },
];

const SOLID: [Row; 5] = [
    // sewing along a link flips the direction of what follows
    Row {
        script: "dart\ndart\ndart\ndart\nsew 3 1 2\nsew 3 3 4\nsew 1 1 3\nshow\n",
        text: "ok 1 1\nok 2 1\nok 3 1\nok 4 1\nok\nok\nok\ncellmap 2 c 3 4 4\n1: 0 3 0 2\n2: 4 0 0 1\n3: 1 0 0 4\n4: 0 2 0 3\n\
            end\n",
        status: 0,
    },
    // two triangles back to back
    Row {
        script: "polygon 3\npolygon 3\nsew 3 1 4\nsewable 3 1 5\ncount\nunsew 1 2\nshow\n",
        text: "ok 1 3\nok 4 3\nok\nfalse\ncount 6 3 3 1 2 1\nok\ncellmap 2 c 3 6 6\n1: 3 2 0 4\n2: 1 0 0 6\n3: 0 1 0 5\n\
            4: 6 5 0 1\n5: 4 0 0 3\n6: 0 4 0 2\nend\n",
        status: 0,
    },
    // a face that is sewn to itself, and an edge across it on both sides
    Row {
        script: "polygon 4\nsew 3 2 3\ncount\nvertex 1\nedge 1 3\nshow\n",
        text: "ok 1 4\nok\ncount 4 3 2 1 1 1\nok 5 2\nok 7 2\ncellmap 2 c 3 8 8\n1: 8 5 0 6\n2: 5 8 0 3\n3: 7 4 0 2\n\
            4: 3 6 0 5\n5: 1 2 0 4\n6: 4 7 0 1\n7: 6 3 8 8\n8: 2 1 7 7\nend\n",
        status: 0,
    },
    // two faces of one volume, sewn to each other
    Row {
        script: "polygon 3\npolygon 3\nsew 2 1 4\nsew 3 1 4\nunsew 2 1\nsew 3 1 1\nunsew 3 1\ncount\n",
        text: "ok 1 3\nok 4 3\nok\nok\nok\nno 5 NotFree\nok\ncount 6 6 6 2 2 2\n",
        status: 1,
    },
    // an edge in a face that lies between two volumes
    Row {
        script: "polygon 4\npolygon 4\nsew 3 1 5\nrule 2 first copy\nset 2 5 8 0 0\nedge 1 3\nvalue 2 10\ncell 2 9\n\
            removable 1 9\ncontractible 1 9\nremove 1 9\nshow\n",
        text: "ok 1 4\nok 5 4\nok\nok\nok\nok 9 4\nvalue 8 0 0\ncell 3 4 6 7 9 12\ntrue\ntrue\nok\ncellmap 2 c 3 12 8\n\
            1: 4 2 0 5\n2: 1 3 0 8\n3: 2 4 0 7\n4: 3 1 0 6\n5: 8 6 0 1\n6: 5 7 0 4\n7: 6 8 0 3\n8: 7 5 0 2\nrule 2 first copy\n\
            val 2 1 8 0 0\nend\n",
        status: 0,
    },
];

const DEEP: [Row; 2] = [
    // the last link, in dimension 4
    Row {
        script: "polygon 3\npolygon 3\nsew 4 1 4\nsew 3 1 1\nvertex 2\nedge 1 3\nshow\n",
        text: "ok 1 3\nok 4 3\nok\nno 6 Unsewable\nok 7 2\nok 9 4\ncellmap 2 c 4 12 12\n1: 10 2 0 0 4\n2: 1 7 0 0 8\n\
            3: 9 9 0 0 5\n4: 8 11 0 0 1\n5: 12 12 0 0 3\n6: 11 8 0 0 7\n7: 2 10 0 0 6\n8: 6 4 0 0 2\n9: 3 3 10 0 12\n\
            10: 7 1 9 0 11\n11: 4 6 12 0 10\n12: 5 5 11 0 9\nend\n",
        status: 1,
    },
    // two volumes of one face each, sewn in two ways
    Row {
        script: "polygon 3\npolygon 3\npolygon 3\npolygon 3\nsew 3 1 4\nsew 3 7 10\nsew 4 1 7\ncell 3 1\ncell 0 1\n\
            removable 2 1\nremove 2 1\nremove 3 4\ncount\n",
        text: "ok 1 3\nok 4 3\nok 7 3\nok 10 3\nok\nok\nok\ncell 1 2 3 7 8 9\ncell 1 5 8 10\nfalse\nno 12 NotRemovable\nok\n\
            count 9 3 3 1 2 2 1\n",
        status: 1,
    },
];

const FLAT_MESHES: [MeshRow; 4] = [
    MeshRow {
        mesh: CUBE,
        script: "count\ncell 0 1\nvalue 0 1\ncell 1 1\nremove 0 1\ncontract 0 1\ncontract 1 1\nvalue 0 1\ncount\n",
        text: "count 24 8 12 6 1\ncell 1 9 22\nvalue 0 0 0\ncell 1 21\nno 12 NotRemovable\nno 13 NotContractible\nok\n\
            no 3 NoDart\ncount 22 7 11 6 1\n",
        status: 1,
    },
    MeshRow {
        mesh: CUBE,
        script: "dual\ncount\ndual\ncount\n",
        text: "ok\ncount 24 6 12 8 1\nok\ncount 24 8 12 6 1\n",
        status: 0,
    },
    MeshRow {
        mesh: "OFF\n4 2 0\n0 0 0\n1 0 0\n0 1 0\n0 0 1\n3 0 1 2\n3 0 1 3\n",
        script: "",
        text: "off face 1 Turned\n",
        status: 3,
    },
    MeshRow {
        mesh: "OFF 5 2 0\n0 0 0\n1 0 0\n0 1 0\n1 1 0\n7 7 7\n3 0 1 2\n3 2 1 3\n",
        script: "show\n",
        text: "cellmap 2 c 2 6 6\n1: 3 2 0\n2: 1 3 4\n3: 2 1 0\n4: 6 5 2\n5: 4 6 0\n6: 5 4 0\nrule 0 first copy\n\
            val 0 1 0 0 0\nval 0 2 1 0 0\nval 0 3 0 1 0\nval 0 6 1 1 0\nend\n",
        status: 0,
    },
];

const SOLID_MESHES: [MeshRow; 2] = [
    MeshRow {
        mesh: CUBE,
        script: "face 9 10 11\nface 9 10 11 12\nface 9 12 11 10\ncount\nremove 2 25\ncount\n",
        text: "no 10 NotClosed\nok 25 8\nno 10 NotClosed\ncount 32 8 12 7 2 1\nok\ncount 24 8 12 6 1 1\n",
        status: 1,
    },
    MeshRow {
        mesh: CUBE,
        script: "mark a\nremove 2 1\ncount\nedge 5 7\nremovable 1 25\nundo a\nsew 3 1 5\ncount\n",
        text: "ok\nok\ncount 20 8 12 5 1 1\nok 25 2\ntrue\nok\nok\ncount 24 4 8 5 1 1\n",
        status: 0,
    },
];

#[test]
fn combinatorial_maps_in_dimension_2(rt: HostRuntime) -> Result<(), AllocError> {
    check_rows(&rt, rt.alloc(), "c", "2", &FLAT)?;
    check_meshes(&rt, rt.alloc(), "c", "2", &FLAT_MESHES)
}

#[test]
fn combinatorial_maps_in_dimension_3(rt: HostRuntime) -> Result<(), AllocError> {
    check_rows(&rt, rt.alloc(), "c", "3", &SOLID)?;
    check_meshes(&rt, rt.alloc(), "c", "3", &SOLID_MESHES)
}

#[test]
fn combinatorial_maps_in_dimension_4(rt: HostRuntime) -> Result<(), AllocError> {
    check_rows(&rt, rt.alloc(), "c", "4", &DEEP)
}
