//! The squares one after another, and the summary.
ghost use Rattle.std.specs.Prelude.{◌≡◌, ◌≤◌, None, Contains, IfOk, OnOk};
ghost use Rattle.machine_defs.specs.Listing.{ListValue as ValuedCell, ListsValuesIn, listed_total};
ghost use Rattle.map_soak.specs.Obeyed.{ObeysSquares};
ghost use Rattle.map_soak.specs.Summaries.{IsSummary};

use crate::count::count_line;
use crate::draws::Draws;
use crate::square::obey_square;
use crate::tally::Tally;
use attr_rules::Hook;
use list_text::ListValue;
use map_core::{Edits, Map};
use std::alloc::{AllocError, Global};

/// So many squares are made at most.
pub const SQUARES_MAX: u32 = 100_000;

/// The summary of a soak.
#[derive(Debug, PartialEq, Eq, Drop)]
pub struct Summary {
    /// How many lines there were.
    pub lines: u64,
    /// How many of them were accepted.
    pub accepted: u64,
    /// What the first numbers of the values of all faces add up to.
    pub total: i128,
    /// The counts of the map: its live darts, its cells of dimension 0 to 2, and its components.
    pub counts: Vec<u64>,
}

/// Has the empty map of dimension 2 obey the rule `sum share` for faces and then the lines for so many squares, as numbers choose
/// them that are drawn from `seed`.
pub fn soak<K: Edits<2>, H: Hook>(
    alloc: Global,
    hook: &H,
    seed: u32,
    count: u32,
) -> Result<Summary, AllocError>
    requires ready { H.ready hook.now }
    requires count { count ≤ SQUARES_MAX }
    ensures { IfOk result (IsSummary (H.hook hook.now) K.kind seed count) }
{
    let mut map = Map::<K, H, 2>::new(alloc, hook);
    let mut tally = Tally::new();
    count_line(&mut tally, map.rule(alloc, 2, "sum", "share"))?;
    obey_squares(alloc, &mut map, Draws { number: seed }, count, &mut tally)?;
    let values = face_values(alloc, &map)?;
    Ok(Summary {
        lines: tally.lines,
        accepted: tally.accepted,
        total: total(&values),
        counts: map.count(alloc)?,
    })
}

/// Has a map obey the lines for so many squares, each sewn to the one before.
fn obey_squares<K: Edits<2>, H: Hook>(
    alloc: Global,
    map: &mut Map<'_, K, H, 2>,
    draws: Draws,
    count: u32,
    tally: &mut Tally,
) -> Result<(), AllocError>
    requires ready { H.ready map.old.hook }
    requires count { count ≤ SQUARES_MAX }
    requires first { tally.old.lines ≤ 1 }
    ensures obeyed { OnOk result (ObeysSquares (H.hook map.old.hook) K.kind None draws.number count map.old.state tally.old map.new.state tally.new) }
{
    let mut draws = draws;
    let mut before = None;
    for _ in 0..count {
        let first = obey_square(alloc, map, before, &mut draws, tally)?;
        before = Some(first);
    }
    Ok(())
}

/// The values of the faces that have one. Only memory can lack, since a map of dimension 2 has faces.
fn face_values<K: Edits<2>, H: Hook>(
    alloc: Global,
    map: &Map<'_, K, H, 2>,
) -> Result<Vec<ListValue>, AllocError>
    ensures { IfOk result (λ values. ListsValuesIn map.now.state.present 2 values.items) }
{
    match map.values(alloc, 2) {
        Ok(values) => Ok(values),
        Err(_) => Err(AllocError),
    }
}

/// What the first numbers of the values of faces add up to.
fn total(values: &[ListValue]) -> i128
    requires { (value : ValuedCell) → Contains values.now value → value.dim ≡ 2 }
    ensures { result ≡ (listed_total 2 values.now).a }
{
    let mut total = 0;
    for value in values {
        total += i128::from(first_number(value));
    }
    total
}

/// The first number of the value of a cell.
fn first_number(value: &ListValue) -> i64
    ensures { result ≡ value.now.value.a }
{
    value.place.value.a
}
