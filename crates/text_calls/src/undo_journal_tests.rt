use link_rows::PlainEdit;
use map_kind::{Refusal, Refused};
use std::alloc::{AllocError, Global};
use std::test::Fail;
use undo_journal::{Journal, Step};

fn note(alloc: Global, journal: &mut Journal, first: u32) -> Result<(), AllocError> {
    journal.reserve()?;
    journal.note(Step {
        first,
        edit: PlainEdit {
            births: 0,
            deaths: Vec::new(alloc),
            changes: Vec::new(alloc),
        },
        values: Vec::new(alloc),
        rules: Vec::new(alloc),
    });
    Ok(())
}

/// How many steps there are since a mark, and the number of the first new dart of the first.
fn firsts(journal: &Journal, name: &str) -> Result<(usize, u32), Refusal> {
    let steps = match journal.entries_since(name) {
        Ok(steps) => steps,
        Err(refusal) => return Err(refusal),
    };
    match steps.first() {
        Some(step) => Ok((steps.len(), step.first)),
        None => Ok((0, 0)),
    }
}

fn names(journal: &Journal) -> (Option<&str>, Option<&str>, Option<&str>) {
    (
        journal.mark_name(0),
        journal.mark_name(1),
        journal.mark_name(2),
    )
}

#[test]
fn keeps_the_steps_since_marks(rt: HostRuntime) -> Result<(), Fail> {
    let mut journal = Journal::new(rt.alloc());
    assert_eq!(&rt; journal.mark_count(), 0);
    assert!(&rt; journal.mark("one").is_ok());
    note(rt.alloc(), &mut journal, 1)?;
    assert!(&rt; journal.mark("two").is_ok());
    note(rt.alloc(), &mut journal, 2)?;
    note(rt.alloc(), &mut journal, 3)?;
    assert_eq!(&rt; journal.mark("one"), Err(Refused::Line(Refusal::MarkTaken)));
    assert_eq!(&rt; journal.mark_count(), 2);
    assert_eq!(&rt; names(&journal), (Some("one"), Some("two"), None));
    assert_eq!(&rt; firsts(&journal, "one"), Ok((3, 1)));
    assert_eq!(&rt; firsts(&journal, "two"), Ok((2, 2)));
    assert_eq!(&rt; firsts(&journal, "three"), Err(Refusal::NoMark));
    Ok(())
}

#[test]
fn goes_back_and_on(rt: HostRuntime) -> Result<(), Fail> {
    let mut journal = Journal::new(rt.alloc());
    assert!(&rt; journal.mark("one").is_ok());
    note(rt.alloc(), &mut journal, 1)?;
    assert!(&rt; journal.mark("two").is_ok());
    note(rt.alloc(), &mut journal, 2)?;
    assert_eq!(&rt;
        journal.back_to("three"),
        Err(Refused::Line(Refusal::NoMark))
    );
    assert_eq!(&rt; journal.back_to("one"), Ok(()));
    assert_eq!(&rt; names(&journal), (Some("one"), None, None));
    assert_eq!(&rt; journal.back_to("two"), Err(Refused::Line(Refusal::NoMark)));
    note(rt.alloc(), &mut journal, 3)?;
    assert!(&rt; journal.mark("two").is_ok());
    note(rt.alloc(), &mut journal, 4)?;
    assert_eq!(&rt; firsts(&journal, "one"), Ok((2, 3)));
    assert_eq!(&rt; firsts(&journal, "two"), Ok((1, 4)));
    Ok(())
}

/// How many steps the last undo took back, and the number of the first new dart of the first.
fn ahead(journal: &Journal, name: &str) -> Result<(usize, u32), Refusal> {
    let steps = match journal.steps_ahead(name) {
        Ok(steps) => steps,
        Err(refusal) => return Err(refusal),
    };
    match steps.first() {
        Some(step) => Ok((steps.len(), step.first)),
        None => Ok((0, 0)),
    }
}

#[test]
fn takes_nested_undos_back_in_turn(rt: HostRuntime) -> Result<(), Fail> {
    let mut journal = Journal::new(rt.alloc());
    assert!(&rt; journal.mark("one").is_ok());
    note(rt.alloc(), &mut journal, 1)?;
    assert!(&rt; journal.mark("two").is_ok());
    note(rt.alloc(), &mut journal, 2)?;
    note(rt.alloc(), &mut journal, 3)?;
    assert_eq!(&rt; journal.forward("two"), Err(Refusal::NoRedo));
    assert_eq!(&rt; journal.back_to("two"), Ok(()));
    assert_eq!(&rt; ahead(&journal, "two"), Ok((2, 2)));
    assert_eq!(&rt; journal.back_to("one"), Ok(()));
    assert_eq!(&rt; ahead(&journal, "one"), Ok((1, 1)));
    assert_eq!(&rt; ahead(&journal, "two"), Err(Refusal::NoRedo));
    assert_eq!(&rt; journal.forward("two"), Err(Refusal::NoRedo));
    assert_eq!(&rt; journal.forward("one"), Ok(()));
    assert_eq!(&rt; names(&journal), (Some("one"), Some("two"), None));
    assert_eq!(&rt; firsts(&journal, "one"), Ok((1, 1)));
    assert_eq!(&rt; journal.forward("two"), Ok(()));
    assert_eq!(&rt; firsts(&journal, "one"), Ok((3, 1)));
    assert_eq!(&rt; journal.forward("two"), Err(Refusal::NoRedo));
    Ok(())
}

#[test]
fn drops_undos_at_a_step(rt: HostRuntime) -> Result<(), Fail> {
    let mut journal = Journal::new(rt.alloc());
    assert!(&rt; journal.mark("one").is_ok());
    note(rt.alloc(), &mut journal, 1)?;
    assert_eq!(&rt; journal.back_to("one"), Ok(()));
    note(rt.alloc(), &mut journal, 2)?;
    assert_eq!(&rt; ahead(&journal, "one"), Err(Refusal::NoRedo));
    assert_eq!(&rt; journal.back_to("one"), Ok(()));
    assert!(&rt; journal.mark("two").is_ok());
    assert_eq!(&rt; journal.forward("one"), Err(Refusal::NoRedo));
    Ok(())
}
