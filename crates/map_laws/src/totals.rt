//! What the values of a dimension add up to.
ghost use Rattle.std.specs.Prelude.{◌≡◌, ℕ, Result, Contains};
ghost use Rattle.map_kind.specs.declared.done.Done.{Done as Made};
ghost use Rattle.map_kind.specs.declared.refusal.Refused.{Refused as Fault};
ghost use Rattle.map_defs.specs.Values.{Value as Numbers, Hook as Handed};
ghost use Rattle.machine_defs.specs.State.{State};
ghost use Rattle.machine_defs.specs.Kept.{IsLawfulState};
ghost use Rattle.machine_defs.specs.Listing.{ListValue as ValuedCell, listed_total};
ghost use Rattle.machine_defs.specs.Script.{Line};
ghost use Rattle.map_core.specs.Calls.{Does};
ghost use Rattle.total_laws.specs.Totals.{HasTotal, IsSumShare, KeepsTotals, SumsStayWithin};
ghost use Rattle.map_laws.specs.Totals.{TellsTotal};

use attr_rules::Hook;
use list_text::ListValue;
use map_core::Map;
use map_kind::{Kind, Refused};
use std::alloc::Global;
use std::marker::Model;

/// What values add up to, each of their three numbers by itself.
#[derive(Clone, Copy, Debug, PartialEq, Eq)]
pub struct Total {
    pub a: i128,
    pub b: i128,
    pub c: i128,
}

impl Model for Total {
    ghost use Rattle.map_defs.specs.Values as values;

    ghost Value = { values.Value };

    ghost view = { λ t. record { a = t.a; b = t.b; c = t.c } };

    ghost inverse = { λ t. record { a = t.a; b = t.b; c = t.c } };
}

/// What the values of the cells of a dimension add up to, each cell that has a value counted once. It costs what
/// [`Map::values`] costs.
///
/// Under the rule `sum share` a caller can see by it that nothing was lost: see [`calls_keep_totals`].
///
/// Refused as `BadDim` exactly where the dimension is above the map's.
pub fn total_of<K: Kind, H: Hook, const DIM: usize>(
    alloc: Global,
    map: &Map<'_, K, H, DIM>,
    dim: u64,
) -> Result<Total, Refused>
    ensures { TellsTotal map.now.state.present dim result }
{
    let values = map.values(alloc, dim)?;
    Ok(sum(&values))
}

/// The values of cells of one dimension added up.
fn sum(values: &[ListValue]) -> Total
    ensures { (i : ℕ) → ((value : ValuedCell) → Contains values.now value → value.dim ≡ i) → result ≡ listed_total i values.now }
{
    let mut a = 0;
    let mut b = 0;
    let mut c = 0;
    for value in values {
        a += i128::from(first_number(value));
        b += i128::from(second_number(value));
        c += i128::from(third_number(value));
    }
    Total { a, b, c }
}

/// The first number of the value of a cell.
fn first_number(value: &ListValue) -> i64
    ensures { result ≡ value.now.value.a }
{
    value.place.value.a
}

/// The second number of the value of a cell.
fn second_number(value: &ListValue) -> i64
    ensures { result ≡ value.now.value.b }
{
    value.place.value.b
}

/// The third number of the value of a cell.
fn third_number(value: &ListValue) -> i64
    ensures { result ≡ value.now.value.c }
{
    value.place.value.c
}

/// Under the rule `sum share` for a dimension the calls of a map for the lines `polygon`, `dart`, `sew`, `unsew`, `vertex`,
/// `edge`, `face`, `close`, `dangle` and `center` keep its total, whatever they answer: if no sum of parts leaves 64 bits, and
/// also where they are refused or have no memory.
///
/// For whoever calls a map: the call's clause `does` is the premise `Does`, that the state before it is lawful is the clause
/// `kept` of [`Map::mark_count`], and [`total_of`] tells the two totals.
pub fn calls_keep_totals()
    ensures { (hook : Handed) (s new : State) (line : Line) (result : Result Made Fault) (i : ℕ) (before after : Numbers)
        → IsLawfulState s → IsSumShare s.present i → KeepsTotals line → Does hook s line result new
        → SumsStayWithin hook i s.present new.present → HasTotal s.present i before → HasTotal new.present i after
        → before ≡ after }
{}
