//! The values after each line of a soak, against those that are computed plainly for all cells.
ghost use Rattle.std.specs.Prelude.{◌≤◌};

use crate::lines::{Line, obey};
use crate::whole_map::check_line;
use attr_rules::OrCopy;
use map_core::{Edits, Map};
use map_kind::{Alpha, Beta, Refused, Value};
use std::alloc::Global;
use std::process::Abort;
use std::test::Fail;

/// The number of the rules of which dimension 2 gets `sum share`.
const FIRST_RULE: u64 = 5;

/// How far the darts that lines name lie behind the first dart of a square.
#[derive(Clone, Copy)]
struct Sides {
    /// The dart that is sewn, and the one of the square before.
    joined: u64,
    before: u64,
    /// The other end of the diagonal.
    opposite: u64,
}

const ALPHA_SIDES: Sides = Sides {
    joined: 1,
    before: 4,
    opposite: 3,
};

const BETA_SIDES: Sides = Sides {
    joined: 0,
    before: 2,
    opposite: 2,
};

/// The generator of a soak.
#[derive(Drop)]
struct Draws {
    number: u64,
}

impl Draws {
    fn draw(&mut self) -> u64 {
        let next = self.number.wrapping_mul(1_103_515_245).wrapping_add(12_345);
        self.number = next.checked_rem(2_147_483_648).unwrap_or(0);
        self.number.checked_div(65_536).unwrap_or(0)
    }

    fn below(&mut self, bound: u64) -> u64 {
        self.draw().checked_rem(bound).unwrap_or(0)
    }
}

/// The last line for a square.
fn change(choice: u64, first: u64, sides: Sides) -> Line {
    match choice {
        0 => Line::Vertex { dart: first },
        1 => Line::Edge {
            dart: first,
            other: first.wrapping_add(sides.opposite),
        },
        2 => Line::Dart,
        _ => Line::Remove {
            dim: 1,
            dart: first,
        },
    }
}

/// The line that gives the face of a dart a value.
fn worth(number: u64, dart: u64) -> Line {
    let a = i64::try_from(number).unwrap_or(0);
    let value = Value { a, b: 0, c: 0 };
    Line::Set {
        dim: 2,
        dart,
        value,
    }
}

/// Checks the lines for a square, and answers its first dart.
fn check_square<K: Edits<2>>(
    rt: &impl Abort,
    alloc: Global,
    map: &mut Map<'_, K, OrCopy, 2>,
    before: Option<u64>,
    draws: &mut Draws,
    sides: Sides,
) -> Result<u64, Refused> {
    let first = u64::from(map.links().made()) + 1;
    check_line(rt, alloc, map, FIRST_RULE, &Line::Polygon { sides: 4 })?;
    if let Some(before) = before {
        let dart = before.wrapping_add(sides.before);
        let other = first.wrapping_add(sides.joined);
        let line = Line::Sew {
            link: 2,
            dart,
            other,
        };
        check_line(rt, alloc, map, FIRST_RULE, &line)?;
    }
    check_line(rt, alloc, map, FIRST_RULE, &worth(draws.below(1000), first))?;
    check_line(
        rt,
        alloc,
        map,
        FIRST_RULE,
        &change(draws.below(4), first, sides),
    )?;
    Ok(first)
}

/// Checks the lines for 200 squares.
fn check_soak<K: Edits<2>>(rt: &impl Abort, alloc: Global, sides: Sides) -> Result<(), Refused> {
    let mut map = Map::<'_, K, OrCopy, 2>::new(alloc, &OrCopy);
    let rule = Line::Rule {
        dim: 2,
        merge: "sum",
        split: "share",
    };
    obey(alloc, &mut map, &rule)?;
    let mut draws = Draws { number: 1 };
    let mut before = None;
    for _ in 0..200 {
        before = Some(check_square(rt, alloc, &mut map, before, &mut draws, sides)?);
    }
    Ok(())
}

#[test]
fn values_of_a_generalized_soak(rt: HostRuntime) -> Result<(), Fail> {
    Ok(check_soak::<Alpha>(&rt, rt.alloc(), ALPHA_SIDES)?)
}

#[test]
fn values_of_a_combinatorial_soak(rt: HostRuntime) -> Result<(), Fail> {
    Ok(check_soak::<Beta>(&rt, rt.alloc(), BETA_SIDES)?)
}
