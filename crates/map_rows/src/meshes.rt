//! Scripts over meshes, and meshes that are refused.
use crate::harness::run_failing;
use std::alloc::{AllocError, Global};
use std::process::Abort;

/// A mesh, a script, what the program writes for them, and its status.
pub struct MeshRow {
    pub mesh: &'static str,
    pub script: &'static str,
    pub text: &'static str,
    pub status: u8,
}

/// Runs each row over a map of a kind and a dimension, and compares the text and the status.
pub fn check_meshes(
    rt: &impl Abort,
    alloc: Global,
    kind: &str,
    dim: &str,
    rows: &[MeshRow],
) -> Result<(), AllocError> {
    for row in rows {
        let words = ["run", kind, dim, "m", "s"];
        let files = [("m", row.mesh.as_bytes()), ("s", row.script.as_bytes())];
        let answer = run_failing(alloc, &words, &files, &[], &[])?;
        assert_eq!(rt; answer.text.as_slice(), row.text.as_bytes(), "{}", row.mesh);
        assert_eq!(rt; answer.status, row.status, "{}", row.mesh);
    }
    Ok(())
}

/// A triangle.
pub const TRIANGLE: &str = "OFF\n3 1 0\n0 0 0\n4 0 0\n0 3 0\n3 0 1 2\n";

/// A cube, with a point that no face has.
pub const CUBE: &str =
    "OFF  # a cube of side two\n9 6 0\n\n0 0 0\n2.000 0 0\n2 2 0\n0 2.0 0\n0 0 2\n2 0 2\n2 2 2\n0 2 2\n9 9 9   # used by no face\n4  0 3 2 1  255 0 0\n4  4 5 6 7  0 255 0\n4  0 1 5 4\n4  1 2 6 5\n4  2 3 7 6\n4  3 0 4 7\n";

const MESHES: [MeshRow; 15] = [
    MeshRow {
        mesh: CUBE,
        script: "count\ncell 0 1\nvalue 0 1\n",
        text: "count 48 8 12 6 1\ncell 1 8 17 24 42 43\nvalue 0 0 0\n",
        status: 0,
    },
    // three sides at one edge
    MeshRow {
        mesh: "OFF\n5 3 0\n0 0 0\n1 0 0\n0 1 0\n0 0 1\n0 2 2\n3 0 1 2\n3 1 0 3\n3 0 1 4\n",
        script: "",
        text: "off face 2 ThreeSides\n",
        status: 3,
    },
    // two sides that lead the same way can be sewn in a generalized map
    MeshRow {
        mesh: "OFF\n4 2 0\n0 0 0\n1 0 0\n0 1 0\n0 0 1\n3 0 1 2\n3 0 1 3\n",
        script: "",
        text: "",
        status: 0,
    },
    // a face that is cut off
    MeshRow {
        mesh: "OFF\n3 1 0\n0 0 0\n4 0 0\n0 3 0\n3 0 1\n",
        script: "polygon 3\n",
        text: "off line 6 Short\n",
        status: 3,
    },
    // the first line
    MeshRow {
        mesh: "COFF\n",
        script: "",
        text: "off line 1 NoHeader\n",
        status: 3,
    },
    MeshRow {
        mesh: "",
        script: "",
        text: "off line 1 NoHeader\n",
        status: 3,
    },
    MeshRow {
        mesh: "OFF\n",
        script: "",
        text: "off line 2 Short\n",
        status: 3,
    },
    MeshRow {
        mesh: "OFF\n3 1\n0 0 0\n4 0 0\n0 3 0\n3 0 1 2\n",
        script: "",
        text: "off line 2 BadCounts\n",
        status: 3,
    },
    // far fewer points than are promised
    MeshRow {
        mesh: "OFF\n4294967295 1 0\n",
        script: "",
        text: "off line 3 Short\n",
        status: 3,
    },
    // points
    MeshRow {
        mesh: "OFF\n3 1 0\n0 0 0.5\n4 0 0\n0 3 0\n3 0 1 2\n",
        script: "",
        text: "off line 3 NotInteger\n",
        status: 3,
    },
    MeshRow {
        mesh: "OFF\n3 1 0\n9223372036854775808 0 0\n4 0 0\n0 3 0\n3 0 1 2\n",
        script: "",
        text: "off line 3 OutOfRange\n",
        status: 3,
    },
    // faces
    MeshRow {
        mesh: "OFF\n3 1 0\n0 0 0\n4 0 0\n0 3 0\n2 0 1\n",
        script: "",
        text: "off line 6 BadFace\n",
        status: 3,
    },
    MeshRow {
        mesh: "OFF\n3 1 0\n0 0 0\n4 0 0\n0 3 0\n3 0 1 3\n",
        script: "",
        text: "off line 6 BadIndex\n",
        status: 3,
    },
    MeshRow {
        mesh: "OFF\n3 1 0\n0 0 0\n4 0 0\n0 3 0\n3 0 1 1\n",
        script: "",
        text: "off face 0 Repeated\n",
        status: 3,
    },
    MeshRow {
        mesh: "OFF\n3 1 0\n0 0 0\n4 0 0\n0 3 0\n3 0 1 2\n0 0 0\n",
        script: "",
        text: "off line 7 Extra\n",
        status: 3,
    },
];

const BOXES: [MeshRow; 2] = [
    // two cubes, whose tops are sewn
    MeshRow {
        mesh: "OFF\n16 12 0\n0 0 0\n2 0 0\n2 2 0\n0 2 0\n0 0 2\n2 0 2\n2 2 2\n0 2 2\n0 0 2\n2 0 2\n2 2 2\n0 2 2\n0 0 4\n2 0 4\n2 2 4\n0 2 4\n4 0 3 2 1\n4 4 5 6 7\n4 0 1 5 4\n4 1 2 6 5\n4 2 3 7 6\n4 3 0 4 7\n4 8 11 10 9\n4 12 13 14 15\n4 8 9 13 12\n4 9 10 14 13\n4 10 11 15 14\n4 11 8 12 15\n",
        script: "count\nvalue 0 54\nsew 3 9 54\ncount\nvalue 0 54\nunsew 3 9\nvalue 0 54\ncount\n",
        text: "count 96 16 24 12 2 2\nvalue 2 0 2\nok\ncount 96 12 20 11 2 1\nvalue 0 0 2\nok\nvalue 0 0 2\n\
            count 96 16 24 12 2 2\n",
        status: 0,
    },
    // a cube, and a face across it
    MeshRow {
        mesh: "OFF\n8 6 0\n0 0 0\n2 0 0\n2 2 0\n0 2 0\n0 0 2\n2 0 2\n2 2 2\n0 2 2\n4 0 3 2 1\n4 4 5 6 7\n4 0 1 5 4\n4 1 2 6 5\n4 2 3 7 6\n4 3 0 4 7\n",
        script: "face 17 19 21\nface 17 18\nface 17 19 21 23\ncount\n",
        text: "no 10 NotClosed\nno 11 Unpaired\nok 49 16\ncount 64 8 12 7 2 1\n",
        status: 1,
    },
];

#[test]
fn meshes_in_dimension_2(rt: HostRuntime) -> Result<(), AllocError> {
    check_meshes(&rt, rt.alloc(), "g", "2", &MESHES)
}

#[test]
fn meshes_in_dimension_3(rt: HostRuntime) -> Result<(), AllocError> {
    check_meshes(&rt, rt.alloc(), "g", "3", &BOXES)
}
