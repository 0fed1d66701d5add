//! Lines and their answers as data. Each line is obeyed by its call of the map.
ghost use Rattle.std.specs.Prelude.{◌≡◌, true};
ghost use Rattle.machine_defs.specs.Script.{is_name};

use attr_rules::OrCopy;
use map_core::{Done, Edits, Map};
use map_kind::{Refusal, Refused, Value};
use std::alloc::Global;
use std::process::Abort;

/// A changing line, and what it names.
#[derive(Clone, Copy)]
pub enum Line {
    Polygon {
        sides: u64,
    },
    Dart,
    Del {
        dart: u64,
    },
    Sew {
        link: u64,
        dart: u64,
        other: u64,
    },
    Unsew {
        link: u64,
        dart: u64,
    },
    Vertex {
        dart: u64,
    },
    Edge {
        dart: u64,
        other: u64,
    },
    Face {
        dart: u64,
        other: u64,
    },
    Remove {
        dim: u64,
        dart: u64,
    },
    Contract {
        dim: u64,
        dart: u64,
    },
    Dual,
    Close {
        link: u64,
    },
    Dangle {
        dart: u64,
    },
    Center {
        dart: u64,
    },
    Rule {
        dim: u64,
        merge: &'static str,
        split: &'static str,
    },
    Set {
        dim: u64,
        dart: u64,
        value: Value,
    },
    Clear {
        dim: u64,
        dart: u64,
    },
    Mark {
        name: Name,
    },
    Undo {
        name: Name,
    },
    Redo {
        name: Name,
    },
}

/// The name of a mark.
#[derive(Clone, Copy)]
pub enum Name {
    Begin,
    End,
    Small,
    Large,
}

impl Name {
    fn as_str(self) -> &'static str
        ensures { is_name result.now ≡ true }
    {
        match self {
            Name::Begin => "begin",
            Name::End => "end",
            Name::Small => "small",
            Name::Large => "large",
        }
    }
}

/// Obeys a line.
pub fn obey<K: Edits<DIM>, const DIM: usize>(
    alloc: Global,
    map: &mut Map<'_, K, OrCopy, DIM>,
    line: &Line,
) -> Result<Done, Refused> {
    match *line {
        Line::Polygon { sides } => map.polygon(alloc, sides),
        Line::Dart => map.dart(alloc),
        Line::Del { dart } => map.del(alloc, dart),
        Line::Sew { link, dart, other } => map.sew(alloc, link, dart, other),
        Line::Unsew { link, dart } => map.unsew(alloc, link, dart),
        Line::Vertex { dart } => map.vertex(alloc, dart),
        Line::Edge { dart, other } => map.edge(alloc, dart, other),
        Line::Face { dart, other } => map.face(alloc, &[dart, other]),
        Line::Remove { dim, dart } => map.remove(alloc, dim, dart),
        Line::Contract { dim, dart } => map.contract(alloc, dim, dart),
        Line::Dual => map.dual(alloc),
        Line::Close { link } => map.close(alloc, link),
        Line::Dangle { dart } => map.dangle(alloc, dart),
        Line::Center { dart } => map.center(alloc, dart),
        Line::Rule { dim, merge, split } => map.rule(alloc, dim, merge, split),
        Line::Set { dim, dart, value } => map.set(alloc, dim, dart, value),
        Line::Clear { dim, dart } => map.clear(alloc, dim, dart),
        Line::Mark { name } => map.mark(name.as_str()),
        Line::Undo { name } => map.undo(alloc, name.as_str()),
        Line::Redo { name } => map.redo(alloc, name.as_str()),
    }
}

/// The answer that is wanted of a line.
#[derive(Clone, Copy)]
pub enum Wanted {
    Done,
    Made { first: u32, count: u32 },
    No(Refusal),
}

/// The answer, as a call of the map gives it.
fn answer(wanted: Wanted) -> Result<Done, Refused> {
    match wanted {
        Wanted::Done => Ok(Done { first: 0, count: 0 }),
        Wanted::Made { first, count } => Ok(Done { first, count }),
        Wanted::No(refusal) => Err(Refused::Line(refusal)),
    }
}

/// Obeys lines one after another, and compares their answers.
pub fn check_lines<K: Edits<DIM>, const DIM: usize>(
    rt: &impl Abort,
    alloc: Global,
    map: &mut Map<'_, K, OrCopy, DIM>,
    rows: &[(Line, Wanted)],
) {
    for (index, (line, wanted)) in rows.iter().enumerate() {
        assert_eq!(rt; obey(alloc, map, line), answer(*wanted), "line {index}");
    }
}
