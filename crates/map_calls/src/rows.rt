//! Rows of darts that ended are used again, and darts that come back have rows: a map is driven over that point within
//! marks, taken back, and forth again until others have the rows.
use crate::lines::{Line, Name, Wanted, check_lines};
use attr_rules::OrCopy;
use map_core::Map;
use map_kind::{Alpha, Refusal, Value};
use std::alloc::{AllocError, Global};
use std::process::Abort;
use std::test::Fail;

const POINT: Value = Value { a: 1, b: 2, c: 3 };

/// A triangle with a value, and a mark.
#[rattlefmt::skip]
const SMALL: [(Line, Wanted); 4] = [
    (Line::Polygon { sides: 3 }, Wanted::Made { first: 1, count: 6 }),
    (Line::Rule { dim: 2, merge: "first", split: "copy" }, Wanted::Done),
    (Line::Set { dim: 2, dart: 1, value: POINT }, Wanted::Done),
    (Line::Mark { name: Name::Small }, Wanted::Done),
];

/// Behind the mark a polygon with a value, of so many darts that their rows are used again once they end.
#[rattlefmt::skip]
const LARGE: [(Line, Wanted); 3] = [
    (Line::Polygon { sides: 2_100 }, Wanted::Made { first: 7, count: 4_200 }),
    (Line::Set { dim: 2, dart: 7, value: POINT }, Wanted::Done),
    (Line::Mark { name: Name::Large }, Wanted::Done),
];

/// The polygon ends, and what is born then stands in its rows, until all is taken back.
#[rattlefmt::skip]
const AGAIN: [(Line, Wanted); 5] = [
    (Line::Remove { dim: 2, dart: 7 }, Wanted::Done),
    (Line::Polygon { sides: 3 }, Wanted::Made { first: 4_207, count: 6 }),
    (Line::Sew { link: 2, dart: 1, other: 4_207 }, Wanted::Done),
    (Line::Set { dim: 2, dart: 4_207, value: POINT }, Wanted::Done),
    (Line::Undo { name: Name::Large }, Wanted::Done),
];

const BACK: [(Line, Wanted); 1] = [(Line::Undo { name: Name::Small }, Wanted::Done)];

const FORTH: [(Line, Wanted); 1] = [(Line::Redo { name: Name::Small }, Wanted::Done)];

/// Numbers and rows of darts that were taken back serve others, and after that nothing brings the former ones back.
#[rattlefmt::skip]
const OTHERS: [(Line, Wanted); 2] = [
    (Line::Polygon { sides: 2_100 }, Wanted::Made { first: 7, count: 4_200 }),
    (Line::Redo { name: Name::Small }, Wanted::No(Refusal::NoRedo)),
];

/// All darts, links, rules and values, and the names of the marks, as a text.
fn whole(alloc: Global, map: &Map<'_, Alpha, OrCopy, 2>) -> Result<String, AllocError> {
    let listing = map.listing(alloc)?;
    format!(in alloc; "{listing:?}")
}

/// Obeys lines, and compares what stands then.
fn check_whole(
    rt: &impl Abort,
    alloc: Global,
    map: &mut Map<'_, Alpha, OrCopy, 2>,
    rows: &[(Line, Wanted)],
    wanted: &str,
) -> Result<(), AllocError> {
    check_lines(rt, alloc, map, rows);
    let found = whole(alloc, map)?;
    assert!(rt; found.as_str() == wanted);
    Ok(())
}

/// Makes and ends darts within marks, and compares what stands at each.
fn check_returns(
    rt: &impl Abort,
    alloc: Global,
    map: &mut Map<'_, Alpha, OrCopy, 2>,
) -> Result<(), Fail> {
    check_lines(rt, alloc, map, &SMALL);
    let small = whole(alloc, map)?;
    check_lines(rt, alloc, map, &LARGE);
    let large = whole(alloc, map)?;
    // The second time the darts come back to rows that others had.
    check_whole(rt, alloc, map, &AGAIN, &large)?;
    check_whole(rt, alloc, map, &AGAIN, &large)?;
    check_whole(rt, alloc, map, &BACK, &small)?;
    check_whole(rt, alloc, map, &FORTH, &large)?;
    check_whole(rt, alloc, map, &BACK, &small)?;
    check_lines(rt, alloc, map, &OTHERS);
    check_whole(rt, alloc, map, &BACK, &small)?;
    Ok(())
}

#[test]
fn goes_back_over_rows_that_were_used_again(rt: HostRuntime) -> Result<(), Fail> {
    let mut map = Map::<'_, Alpha, OrCopy, 2>::new(rt.alloc(), &OrCopy);
    check_returns(&rt, rt.alloc(), &mut map)
}
