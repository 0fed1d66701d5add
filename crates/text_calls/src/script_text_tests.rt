//! What no clause says: that lines are read where memory is there, and that the grammar, the replies and the logs are as
//! meant.
ghost use Rattle.std.specs.Prelude.{◌<◌};

use attr_rules::{Merge, Split, TableRule};
use link_rows::{Change as LinkChange, PlainEdit};
use map_kind::{Dart, Done, Refusal, Refused, Value};
use script_text::{Change, Line, Question, Reply, log_text, read_line, reply_text};
use std::alloc::{AllocError, Global};
use std::test::Fail;
use undo_journal::{RuleChange, Step, ValueChange};

#[test]
fn lines_that_change(rt: HostRuntime) -> Result<(), Fail> {
    let alloc = rt.alloc();
    let name = |text: &str| String::from_str(alloc, text);
    let table = vec![in alloc;
        ("polygon 3", Change::Polygon(3)),
        ("dart", Change::Dart),
        ("del 4194304", Change::Del(4_194_304)),
        ("sew 2 1 7", Change::Sew(2, 1, 7)),
        ("unsew 2 1", Change::Unsew(2, 1)),
        (
            "vertex 9999999999999999999",
            Change::Vertex(9_999_999_999_999_999_999)
        ),
        ("edge 1 4", Change::Edge(1, 4)),
        ("face 17", Change::Face(vec![in alloc; 17]?)),
        ("face 17 19 0", Change::Face(vec![in alloc; 17, 19, 0]?)),
        ("remove 1 9", Change::Remove(1, 9)),
        ("contract 1 9", Change::Contract(1, 9)),
        ("dual", Change::Dual),
        (
            "rule 2 sum share",
            Change::Rule(2, name("sum")?, name("share")?)
        ),
        (
            "set 0 1 9223372036854775807 -9223372036854775808 0",
            Change::Set(
                0,
                1,
                Value {
                    a: i64::MAX,
                    b: i64::MIN,
                    c: 0
                }
            ),
        ),
        ("clear 0 2", Change::Clear(0, 2)),
        ("mark _a0", Change::Mark(name("_a0")?)),
        ("undo 12", Change::Undo(name("12")?)),
        (" \t polygon\r 0 \r", Change::Polygon(0)),
        ("polygon 3#4", Change::Polygon(3)),
    ]?;
    for (line, told) in &table {
        let read = read_line(alloc, line.as_bytes());
        assert!(rt;
            matches!(&read, Ok(Some(Line::Change(change))) if change == told),
            "{line}"
        );
    }
    Ok(())
}

#[test]
fn lines_that_ask(rt: HostRuntime) -> Result<(), Fail> {
    let alloc = rt.alloc();
    let table = vec![in alloc;
        (
            "log abcdefghijklmnopqrstuvwxyz_01234",
            Question::Log(String::from_str(alloc, "abcdefghijklmnopqrstuvwxyz_01234")?),
        ),
        ("cell 0 1", Question::Cell(0, 1)),
        ("same 1 2 3", Question::Same(1, 2, 3)),
        ("free 1 2", Question::Free(1, 2)),
        ("value 2 5", Question::Value(2, 5)),
        ("removable 0 7", Question::Removable(0, 7)),
        ("contractible 2 1", Question::Contractible(2, 1)),
        ("sewable 2 1 7", Question::Sewable(2, 1, 7)),
        ("off", Question::Off),
        ("count", Question::Count),
        ("show", Question::Show),
        ("show # a word of \u{e9}", Question::Show),
    ]?;
    for (line, told) in &table {
        let read = read_line(alloc, line.as_bytes());
        assert!(rt;
            matches!(&read, Ok(Some(Line::Question(question))) if question == told),
            "{line}"
        );
    }
    Ok(())
}

#[test]
fn lines_without_a_word(rt: HostRuntime) -> Result<(), Fail> {
    for line in ["", " ", "\t\r ", "#", "  # polygon 3"] {
        assert!(rt;
            matches!(read_line(rt.alloc(), line.as_bytes()), Ok(None)),
            "{line}"
        );
    }
    Ok(())
}

#[test]
fn lines_outside_the_grammar(rt: HostRuntime) -> Result<(), Fail> {
    let table = [
        "fly",
        "Show",
        "show 1",
        "polygon",
        "polygon 3 4",
        "polygon x",
        "polygon 03",
        "polygon 00",
        "polygon -3",
        "polygon +3",
        "polygon 10000000000000000000",
        "polygon3",
        "show \u{e9}",
        "show\u{c}",
        "sew 2 1",
        "sew 2 1 7 8",
        "edge 1",
        "face",
        "face 1 x",
        "rule 2 sum",
        "rule 2 sum share more",
        "rule x sum share",
        "rule 2 Sum share",
        "set 0 1 2 3",
        "set 0 1 2 3 4 5",
        "set 0 1 -0 0 0",
        "set 0 1 -01 0 0",
        "set 0 1 - 0 0",
        "set 0 1 9223372036854775808 0 0",
        "set 0 1 -9223372036854775809 0 0",
        "set -1 1 0 0 0",
        "mark",
        "mark a b",
        "mark a-b",
        "mark abcdefghijklmnopqrstuvwxyz_012345",
    ];
    for line in table {
        let read = read_line(rt.alloc(), line.as_bytes());
        assert!(rt;
            matches!(read, Err(Refused::Line(Refusal::Syntax))),
            "{line}"
        );
    }
    Ok(())
}

#[test]
fn faces_of_many_darts(rt: HostRuntime) -> Result<(), Fail> {
    let alloc = rt.alloc();
    let mut line = String::from_str(alloc, "face")?;
    for _ in 0..4096 {
        line.push_str(" 1")?;
    }
    assert!(rt;
        matches!(
            read_line(alloc, line.as_bytes()),
            Ok(Some(Line::Change(Change::Face(_))))
        )
    );
    line.push_str(" 1")?;
    assert!(rt;
        matches!(
            read_line(alloc, line.as_bytes()),
            Err(Refused::Line(Refusal::Syntax))
        )
    );
    Ok(())
}

#[test]
fn replies(rt: HostRuntime) -> Result<(), Fail> {
    let alloc = rt.alloc();
    let first = Dart::new(1).ok_or("no dart")?;
    let last = Dart::new(4_194_304).ok_or("no dart")?;
    let table = vec![in alloc;
        (Reply::Done(Done { first: 7, count: 2 }), "ok 7 2\n"),
        (Reply::Done(Done::NONE), "ok\n"),
        (Reply::Truth(true), "true\n"),
        (Reply::Truth(false), "false\n"),
        (
            Reply::Cell(vec![in alloc; first, last]?),
            "cell 1 4194304\n"
        ),
        (
            Reply::Count(vec![in alloc; 48, 8, 12, 6, 1]?),
            "count 48 8 12 6 1\n"
        ),
        (Reply::No(Refusal::Syntax), "no 1 Syntax\n"),
        (Reply::No(Refusal::Full), "no 21 Full\n"),
    ]?;
    for (reply, text) in &table {
        assert_eq!(rt; reply_text(alloc, reply)?.as_slice(), text.as_bytes());
        assert_eq!(rt; reply.is_refused(), text.starts_with("no"));
    }
    Ok(())
}

fn link_change(dart: u32, link: usize, old: u32, new: u32) -> Result<LinkChange, Fail> {
    let dart = Dart::new(dart).ok_or("no dart")?;
    Ok(LinkChange::new(dart, link, old, new))
}

fn empty_step(alloc: Global) -> Step {
    Step {
        first: 0,
        edit: PlainEdit {
            births: 0,
            deaths: Vec::new(alloc),
            changes: Vec::new(alloc),
        },
        values: Vec::new(alloc),
        rules: Vec::new(alloc),
    }
}

#[test]
fn log_of_a_vertex(rt: HostRuntime) -> Result<(), Fail> {
    let alloc = rt.alloc();
    let step = Step {
        first: 7,
        edit: PlainEdit {
            births: 2,
            deaths: Vec::new(alloc),
            changes: vec![in alloc;
                link_change(1, 0, 2, 7)?,
                link_change(2, 0, 1, 8)?,
                link_change(7, 0, 0, 1)?,
                link_change(7, 1, 0, 8)?,
                link_change(8, 0, 0, 2)?,
                link_change(8, 1, 0, 7)?,
            ]?,
        },
        ..empty_step(alloc)
    };
    let steps = vec![in alloc; step]?;
    assert_eq!(rt;
        log_text(alloc, steps.as_slice())?.as_slice(),
        b"log 1
step 1
born 7 2
link 1 0 2 7
link 2 0 1 8
link 7 0 0 1
link 7 1 0 8
link 8 0 0 2
link 8 1 0 7
end
"
            .as_slice()
    );
    Ok(())
}

/// A step that changes the value of a dart in dimension 0.
fn valued_step(
    alloc: Global,
    dart: Dart,
    old: Option<Value>,
    new: Option<Value>,
) -> Result<Step, AllocError> {
    Ok(Step {
        values: vec![in alloc;
            ValueChange {
                dim: 0,
                dart,
                old,
                new,
            },
        ]?,
        ..empty_step(alloc)
    })
}

#[test]
fn log_of_a_rule_and_a_value(rt: HostRuntime) -> Result<(), Fail> {
    let alloc = rt.alloc();
    let dart = Dart::new(1).ok_or("no dart")?;
    let value = Value { a: 1, b: 2, c: 3 };
    let rule = TableRule {
        merge: Merge::Sum,
        split: Split::Copied,
    };
    let ruled = Step {
        rules: vec![in alloc;
            RuleChange {
                dim: 0,
                old: None,
                new: Some(rule),
            },
        ]?,
        ..empty_step(alloc)
    };
    let mut ended = valued_step(alloc, dart, Some(value), None)?;
    ended.edit.deaths.push(dart)?;
    let valued = valued_step(alloc, dart, None, Some(value))?;
    let steps = vec![in alloc; ruled, valued, ended]?;
    assert_eq!(rt;
        log_text(alloc, steps.as_slice())?.as_slice(),
        b"log 3
step 1
rule 0 - sum/copy
step 2
val 0 1 - 1,2,3
step 3
dead 1
val 0 1 1,2,3 -
end
"
            .as_slice()
    );
    Ok(())
}
