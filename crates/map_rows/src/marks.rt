//! Marks, logs, and going back.
use crate::harness::{Row, check_rows, obey};
use crate::meshes::{CUBE, MeshRow, check_meshes};
use std::alloc::AllocError;

const MARKS: [Row; 3] = [
    // a mark within a mark, over a face that is gone and its value: going back to the first drops the second
    Row {
        script: "polygon 3\nrule 2 first copy\nset 2 1 4 5 6\nmark a\nremove 2 1\nmark b\ndual\nundo a\nvalue 2 1\npolygon 3\nundo b\nmark a\n",
        text: "ok 1 6\nok\nok\nok\nok\nok\nok\nok\nvalue 4 5 6\nok 7 6\nno 18 NoMark\nno 17 MarkTaken\n",
        status: 1,
    },
    // a name is taken while its mark stands, and free again once it is gone
    Row {
        script: "undo a\nlog a\nmark a\nmark a\nmark b\nundo a\nundo b\nlog b\nmark b\nredo b\n",
        text: "no 18 NoMark\nno 18 NoMark\nok\nno 17 MarkTaken\nok\nok\nno 18 NoMark\nno 18 NoMark\nok\nno 22 NoRedo\n",
        status: 1,
    },
    // refused lines, questions and marks are no steps, and a number that was taken back is given again
    Row {
        script: "polygon 3\nmark a\nunsew 2 1\npolygon 2\nmark b\ncell 0 1\nlog a\ndart\nlog b\nundo a\nlog b\nmark b\ndart\nlog a\n",
        text: "ok 1 6\nok\nno 7 AlreadyFree\nno 16 BadCount\nok\ncell 1 6\nlog 0\nend\nok 7 1\nlog 1\nstep 1\nborn 7 1\nend\n\
            ok\nno 18 NoMark\nok\nok 7 1\nlog 1\nstep 1\nborn 7 1\nend\n",
        status: 1,
    },
];

const REDOS: [Row; 3] = [
    // the last undo alone can be taken back, by its name, until a step is made
    Row {
        script: "polygon 3\nmark a\nvertex 1\nundo a\nredo b\nredo a\ncount\nundo a\ndart\nredo a\n",
        text: "ok 1 6\nok\nok 7 2\nok\nno 22 NoRedo\nok\ncount 8 4 4 1 1\nok\nok 7 1\nno 22 NoRedo\n",
        status: 1,
    },
    // undos within an undo, taken back one after another, with the later mark
    Row {
        script: "polygon 3\nmark a\nvertex 1\nmark b\ndart\nundo b\nundo a\nredo b\nredo a\nredo b\nlog b\n",
        text: "ok 1 6\nok\nok 7 2\nok\nok 9 1\nok\nok\nno 22 NoRedo\nok\nok\nlog 1\nstep 1\nborn 9 1\nend\n",
        status: 1,
    },
    // a face with a value that is gone, the dual and its rules; a refused line drops nothing, and a mark drops what was undone
    Row {
        script: "redo a\npolygon 3\nrule 2 first copy\nset 2 1 4 5 6\nmark a\nremove 2 1\nmark b\ndual\nundo a\nvalue 2 1\n\
            mark a\nredo a\nmark b\nundo b\nredo b\nundo b\nundo a\nvalue 2 1\nmark c\nredo a\n",
        text: "no 22 NoRedo\nok 1 6\nok\nok\nok\nok\nok\nok\nok\nvalue 4 5 6\nno 17 MarkTaken\nok\nno 17 MarkTaken\nok\nok\nok\n\
            ok\nvalue 4 5 6\nok\nno 22 NoRedo\n",
        status: 1,
    },
];

const LOGS: [Row; 3] = [
    // a vertex on an edge
    Row {
        script: "polygon 3\nmark a\nvertex 1\nlog a\n",
        text: "ok 1 6\nok\nok 7 2\nlog 1\nstep 1\nborn 7 2\nlink 1 0 2 7\nlink 2 0 1 8\nlink 7 0 0 1\nlink 7 1 0 8\n\
            link 8 0 0 2\nlink 8 1 0 7\nend\n",
        status: 0,
    },
    // a rule, a value, and a dart that ends with its value
    Row {
        script: "dart\nmark a\nrule 0 sum copy\nset 0 1 1 2 3\ndel 1\nlog a\n",
        text: "ok 1 1\nok\nok\nok\nok\nlog 3\nstep 1\nrule 0 - sum/copy\nstep 2\nval 0 1 - 1,2,3\nstep 3\ndead 1\n\
            val 0 1 1,2,3 -\nend\n",
        status: 0,
    },
    // values that merge and split again, a line that clears nothing, and a rule that stands already
    Row {
        script: "polygon 3\npolygon 3\nrule 1 sum share\nset 1 1 5 0 0\nset 1 7 2 0 0\nmark a\nsew 2 1 7\nunsew 2 1\nclear 1 3\nrule 1 sum share\nlog a\nundo a\nvalue 1 1\nvalue 1 7\nfree 2 1\n",
        text: "ok 1 6\nok 7 6\nok\nok\nok\nok\nok\nok\nok\nok\nlog 4\nstep 1\nlink 1 2 0 7\nlink 2 2 0 8\nlink 7 2 0 1\n\
            link 8 2 0 2\nval 1 1 5,0,0 7,0,0\nval 1 2 5,0,0 7,0,0\nval 1 7 2,0,0 7,0,0\nval 1 8 2,0,0 7,0,0\nstep 2\n\
            link 1 2 7 0\nlink 2 2 8 0\nlink 7 2 1 0\nlink 8 2 2 0\nval 1 1 7,0,0 4,0,0\nval 1 2 7,0,0 4,0,0\n\
            val 1 7 7,0,0 3,0,0\nval 1 8 7,0,0 3,0,0\nstep 3\nstep 4\nend\nok\nvalue 5 0 0\nvalue 2 0 0\ntrue\n",
        status: 0,
    },
];

const CUBES: [MeshRow; 1] = [
    // an edge that is contracted and the dual, each taken back, with the points
    MeshRow {
        mesh: CUBE,
        script: "rule 0 first copy\nmark a\ncontract 1 1\nmark b\ndual\nvalue 2 3\nundo b\nvalue 0 3\nundo a\ncount\nvalue 0 1\n",
        text: "ok\nok\nok\nok\nok\nvalue 0 2 0\nok\nvalue 0 2 0\nok\ncount 48 8 12 6 1\nvalue 0 0 0\n",
        status: 0,
    },
];

const SOLID: [MeshRow; 1] = [
    // a wall through a cube that is removed, stands again, and is gone
    MeshRow {
        mesh: CUBE,
        script: "mark a\nface 17 19 21 23\nmark b\nremove 2 49\nundo b\ncount\nundo a\ncount\n",
        text: "ok\nok 49 16\nok\nok\nok\ncount 64 8 12 7 2 1\nok\ncount 48 8 12 6 1 1\n",
        status: 0,
    },
];

#[test]
fn marks_in_dimension_2(rt: HostRuntime) -> Result<(), AllocError> {
    check_rows(&rt, rt.alloc(), "g", "2", &MARKS)
}

#[test]
fn redos_in_dimension_2(rt: HostRuntime) -> Result<(), AllocError> {
    check_rows(&rt, rt.alloc(), "g", "2", &REDOS)
}

#[test]
fn logs_in_dimension_2(rt: HostRuntime) -> Result<(), AllocError> {
    check_rows(&rt, rt.alloc(), "g", "2", &LOGS)
}

#[test]
fn back_to_a_cube(rt: HostRuntime) -> Result<(), AllocError> {
    check_meshes(&rt, rt.alloc(), "g", "2", &CUBES)
}

#[test]
fn back_to_a_wall(rt: HostRuntime) -> Result<(), AllocError> {
    check_meshes(&rt, rt.alloc(), "g", "3", &SOLID)
}

/// 32 polygons of 65,536 sides make all the darts that are ever made. The last one taken back leaves room for its numbers.
#[test]
fn back_from_a_full_map(rt: HostRuntime) -> Result<(), AllocError> {
    let mut script = Vec::new(rt.alloc());
    for _ in 0..31 {
        script.extend_from_slice(b"polygon 65536\n")?;
    }
    script.extend_from_slice(b"mark a\npolygon 65536\ndart\nundo a\ndart\n")?;
    let answer = obey(rt.alloc(), "g", "2", script)?;
    assert!(rt;
        answer.text.ends_with(
            b"ok 3932161 131072\nok\nok 4063233 131072\nno 21 Full\nok\nok 4063233 1\n"
        )
    );
    assert_eq!(rt; answer.status, 1);
    Ok(())
}

/// 4,000 marks in a map of 300,000 darts, with a vertex behind each, and back to the first. A copy of the map for each would
/// take many gigabytes.
#[test]
fn back_through_many_marks(rt: HostRuntime) -> Result<(), AllocError> {
    let mut script = Vec::new(rt.alloc());
    script.extend_from_slice(b"polygon 50000\npolygon 50000\npolygon 50000\n")?;
    for number in 0..4000 {
        let lines = format!(in rt.alloc(); "mark m{number}\nvertex 1\n")?;
        script.extend_from_slice(lines.as_bytes())?;
    }
    script.extend_from_slice(b"undo m0\ncount\n")?;
    let answer = obey(rt.alloc(), "g", "2", script)?;
    assert!(rt;
        answer
            .text
            .ends_with(b"ok\nok 307999 2\nok\ncount 300000 150000 150000 3 3\n")
    );
    assert_eq!(rt; answer.status, 0);
    Ok(())
}
