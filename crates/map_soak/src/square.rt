//! The lines for a square.
ghost use Rattle.std.specs.Prelude.{◌≡◌, ◌+◌, ◌^◌, ◌≤◌, ◌<◌, ◌%◌, [], ◌∷◌, Some, pos, IfOk, OnOk, slice_index_or};
ghost use Rattle.map_defs.specs.Rows.{made};
ghost use Rattle.machine_defs.specs.Script.{Sew, Edge, Dart};
ghost use Rattle.machine_defs.specs.Soaking.{next_seed, drawn, joining, diagonal, changes, square_lines};
ghost use Rattle.map_core.specs.Calls.{Does};
ghost use Rattle.map_soak.specs.Obeyed.{Obeys};

use crate::count::count_line;
use crate::draws::Draws;
use crate::tally::{LINES_MAX, Tally};
use attr_rules::Hook;
use map_core::{Done, Edits, Map};
use map_kind::{Kind, Refused, Value, is_generalized};
use std::alloc::{AllocError, Global};

/// Has a map obey the lines for a square: it is made, sewn to the one before, if there is one, its face gets a value, and it is
/// changed. The value and the change are drawn. Answers the first dart of the square.
pub(crate) fn obey_square<K: Edits<2>, H: Hook>(
    alloc: Global,
    map: &mut Map<'_, K, H, 2>,
    before: Option<u32>,
    draws: &mut Draws,
    tally: &mut Tally,
) -> Result<u32, AllocError>
    requires ready { H.ready map.old.hook }
    requires room { tally.old.lines + 4 ≤ LINES_MAX }
    ensures hook { map.new.hook ≡ map.old.hook }
    ensures few { tally.new.lines ≤ tally.old.lines + 4 }
    ensures first { IfOk result (λ first. first ≡ made map.old.state.present.rows + 1) }
    ensures drawn { OnOk result (draws.new.number ≡ next_seed (next_seed draws.old.number)) }
    ensures obeyed { OnOk result (Obeys (H.hook map.old.hook) map.old.state
        (square_lines K.kind before (made map.old.state.present.rows + 1)
        (drawn (next_seed draws.old.number) % 1000) (drawn (next_seed (next_seed draws.old.number)) % 4))
        tally.old map.new.state tally.new) }
{
    let first = map.links().made() + 1;
    let worth = draws.draw() % 1000;
    let choice = draws.draw() % 4;
    count_line(tally, map.polygon(alloc, 4))?;
    join(alloc, map, before, first, tally)?;
    count_line(tally, map.set(alloc, 2, u64::from(first), worth_of(worth)))?;
    count_line(tally, change(alloc, map, choice, first))?;
    Ok(first)
}

/// The value whose first number this is.
fn worth_of(worth: u32) -> Value
    ensures { result ≡ record { a = pos worth; b = pos 0; c = pos 0 } }
{
    Value {
        a: i64::from(worth),
        b: 0,
        c: 0,
    }
}

/// Sews the first side of a square to a side of the one before, if there is one.
fn join<K: Edits<2>, H: Hook>(
    alloc: Global,
    map: &mut Map<'_, K, H, 2>,
    before: Option<u32>,
    first: u32,
    tally: &mut Tally,
) -> Result<(), AllocError>
    requires ready { H.ready map.old.hook }
    requires room { tally.old.lines < LINES_MAX }
    ensures hook { map.new.hook ≡ map.old.hook }
    ensures few { tally.new.lines ≤ tally.old.lines + 1 }
    ensures obeyed { OnOk result (Obeys (H.hook map.old.hook) map.old.state (joining K.kind before first) tally.old map.new.state tally.new) }
{
    let Some(before) = before else {
        return Ok(());
    };
    let (dart, other) = joint::<K>(u64::from(before), u64::from(first));
    count_line(tally, map.sew(alloc, 2, dart, other))
}

/// The darts of two squares that are sewn. The side of the square before does not touch its first side.
fn joint<K: Kind>(before: u64, first: u64) -> (u64, u64)
    requires { (before < 2 ^ 32) × (first < 2 ^ 32) }
    ensures { joining K.kind (Some before) first ≡ Sew 2 result.0 result.1 ∷ [] }
{
    if is_generalized::<K>() {
        (before + 4, first + 1)
    } else {
        (before + 2, first)
    }
}

/// Has a map obey one of the lines by which a square may be changed.
fn change<K: Edits<2>, H: Hook>(
    alloc: Global,
    map: &mut Map<'_, K, H, 2>,
    choice: u32,
    first: u32,
) -> Result<Done, Refused>
    requires ready { H.ready map.old.hook }
    requires choice { choice < 4 }
    ensures hook { map.new.hook ≡ map.old.hook }
    ensures does { Does (H.hook map.old.hook) map.old.state (slice_index_or (changes K.kind first) choice Dart) result map.new.state }
{
    let first = u64::from(first);
    match choice {
        0 => map.vertex(alloc, first),
        1 => map.edge(alloc, first, opposite::<K>(first)),
        2 => map.dart(alloc),
        _ => map.remove(alloc, 1, first),
    }
}

/// The dart of a square to which a diagonal leads from its first dart.
fn opposite<K: Kind>(first: u64) -> u64
    requires { first < 2 ^ 32 }
    ensures { diagonal K.kind first ≡ Edge first result }
{
    if is_generalized::<K>() {
        first + 3
    } else {
        first + 2
    }
}
