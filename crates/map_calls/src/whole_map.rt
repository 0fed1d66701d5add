//! The values after random lines, against those that are computed plainly for all cells from all live darts: from the
//! values and the cells before a line, and from the cells after it. In the end all lines are taken back.
ghost use Rattle.std.specs.Prelude.{◌≤◌};

use crate::lines::{Line, Name, obey};
use attr_rules::{OrCopy, Rule, RuleWith, TableRule, merge_named, split_named};
use map_core::{Edits, Map};
use map_kind::{Alpha, Beta, Refused, Value};
use std::alloc::{AllocError, Global};
use std::process::Abort;
use std::test::Fail;

/// A cell, by its dimension and its least dart.
#[derive(Clone, Copy, PartialEq, Eq)]
struct Cell {
    dim: u64,
    least: u64,
}

/// A cell of a live dart, and the cell's value.
#[derive(Clone, Copy, PartialEq, Eq)]
struct Standing {
    dart: u64,
    cell: Cell,
    value: Option<Value>,
}

/// The darts that live before and after a line, and lie in one old cell with this value and in one new cell.
#[derive(Clone, Copy, PartialEq, Eq)]
struct Piece {
    old: Cell,
    new: Cell,
    value: Value,
}

/// Numbers without an order to be seen, the same in each run.
#[derive(Drop)]
struct Random {
    state: u64,
}

impl Random {
    /// A number below the bound.
    fn below(&mut self, bound: u64) -> u64 {
        self.state = self
            .state
            .wrapping_mul(6364136223846793005)
            .wrapping_add(1442695040888963407);
        (self.state >> 33).checked_rem(bound).unwrap_or(0)
    }

    /// A value whose numbers are near 0.
    fn value(&mut self) -> Value {
        let a = i64::try_from(self.below(100)).unwrap_or(0);
        let b = i64::try_from(self.below(100)).unwrap_or(0);
        Value {
            a,
            b: b.wrapping_sub(50),
            c: a.wrapping_sub(b),
        }
    }

    /// A line for a map of this dimension with so many darts. Some name a dart or a dimension too high.
    fn line(&mut self, dimension: u64, darts: u64) -> Line {
        let dim = self.below(dimension.wrapping_add(2));
        let dart = self.below(darts.wrapping_add(2));
        let other = self.below(darts.wrapping_add(2));
        let value = self.value();
        let named = Named {
            dim,
            dart,
            other,
            value,
        };
        line_of(self.below(24), dimension, named)
    }
}

/// What a random line may name.
#[derive(Clone, Copy)]
struct Named {
    dim: u64,
    dart: u64,
    other: u64,
    value: Value,
}

/// The line of this choice for a map of this dimension.
fn line_of(choice: u64, dimension: u64, named: Named) -> Line {
    let Named {
        dim,
        dart,
        other,
        value,
    } = named;
    match choice {
        0..=3 => Line::Set { dim, dart, value },
        4 => Line::Clear { dim, dart },
        5 => Line::Del { dart },
        6..=9 => Line::Unsew { link: dim, dart },
        10..=11 => Line::Sew {
            link: dimension,
            dart,
            other,
        },
        12 => Line::Vertex { dart },
        13..=15 => Line::Edge { dart, other },
        16 => Line::Face { dart, other },
        17 => Line::Remove { dim, dart },
        18 => Line::Contract { dim, dart },
        19 => Line::Dangle { dart },
        20 => Line::Center { dart },
        _ => Line::Sew {
            link: dim,
            dart,
            other,
        },
    }
}

/// The names of the rule of this number, if it stands for one.
fn names_of(number: u64) -> Option<(&'static str, &'static str)> {
    match number.checked_rem(7).unwrap_or(0) {
        0 => Some(("sum", "share")),
        1 => Some(("last", "keep")),
        2 => Some(("mid", "copy")),
        3 => Some(("first", "share")),
        4 => Some(("max", "keep")),
        5 => Some(("min", "copy")),
        _ => None,
    }
}

/// The rule of this number, if it stands for one.
fn rule_of(number: u64) -> Option<TableRule> {
    let (merge, split) = names_of(number)?;
    Some(TableRule {
        merge: merge_named(merge)?,
        split: split_named(split)?,
    })
}

/// All that stands of the live darts: dimension by dimension, ascending.
fn standings<K: Edits<DIM>, const DIM: usize>(
    alloc: Global,
    map: &Map<'_, K, OrCopy, DIM>,
) -> Result<Vec<Standing>, Refused> {
    let mut standings = Vec::new(alloc);
    for dim in 0..map.links().dimension() + 1 {
        add_dimension(alloc, map, dim as u64, &mut standings)?;
    }
    Ok(standings)
}

fn add_dimension<K: Edits<DIM>, const DIM: usize>(
    alloc: Global,
    map: &Map<'_, K, OrCopy, DIM>,
    dim: u64,
    standings: &mut Vec<Standing>,
) -> Result<(), Refused> {
    for number in 0..map.links().made() {
        add_standing(alloc, map, dim, u64::from(number) + 1, standings)?;
    }
    Ok(())
}

fn add_standing<K: Edits<DIM>, const DIM: usize>(
    alloc: Global,
    map: &Map<'_, K, OrCopy, DIM>,
    dim: u64,
    dart: u64,
    standings: &mut Vec<Standing>,
) -> Result<(), Refused> {
    let Ok(value) = map.value(dim, dart) else {
        return Ok(());
    };
    let darts = map.cell(alloc, dim, dart)?;
    let least = darts.first().map_or(0, |least| u64::from(least.number()));
    let cell = Cell { dim, least };
    standings.push(Standing { dart, cell, value })?;
    Ok(())
}

/// The cell of a dart in a dimension, if the dart lives.
fn cell_of(standings: &[Standing], dim: u64, dart: u64) -> Option<Cell> {
    let place = standings.partition_point(|standing| standing.cell.dim < dim
        || standing.cell.dim == dim && standing.dart < dart);
    let standing = standings.get(place)?;
    if standing.cell.dim == dim && standing.dart == dart {
        Some(standing.cell)
    } else {
        None
    }
}

/// The value that a line itself sets the cell of a dart to, or leaves there.
fn value_set(line: &Line, before: &[Standing], standing: &Standing) -> Option<Value> {
    let (dim, dart, value) = match *line {
        Line::Set { dim, dart, value } => (dim, dart, Some(value)),
        Line::Clear { dim, dart } => (dim, dart, None),
        _ => return standing.value,
    };
    if cell_of(before, dim, dart) == Some(standing.cell) {
        value
    } else {
        standing.value
    }
}

/// The pieces of all old cells, ascending by their least darts in each dimension.
fn pieces(
    alloc: Global,
    line: &Line,
    before: &[Standing],
    after: &[Standing],
) -> Result<Vec<Piece>, AllocError> {
    let mut pieces = Vec::new(alloc);
    for standing in before {
        let value = value_set(line, before, standing);
        add_piece(standing, value, after, &mut pieces)?;
    }
    Ok(pieces)
}

/// Adds the piece of a dart, unless an earlier dart lies in it.
fn add_piece(
    standing: &Standing,
    value: Option<Value>,
    after: &[Standing],
    pieces: &mut Vec<Piece>,
) -> Result<(), AllocError> {
    let old = standing.cell;
    let Some(value) = value else {
        return Ok(());
    };
    let Some(new) = cell_of(after, old.dim, standing.dart) else {
        return Ok(());
    };
    let piece = Piece { old, new, value };
    if !pieces.contains(&piece) {
        pieces.push(piece)?;
    }
    Ok(())
}

/// The part that a piece gets of the value of its old cell.
fn part(rule: &RuleWith<'_, OrCopy>, pieces: &[Piece], piece: &Piece) -> Option<Value> {
    let mut count: u32 = 0;
    let mut place: u32 = 0;
    for other in pieces {
        if other == piece {
            place = count;
        }
        if other.old == piece.old {
            count = count.wrapping_add(1);
        }
    }
    if place < count {
        rule.share(piece.value, count, place)
    } else {
        None
    }
}

/// The values of the pieces of a new cell, merged from the left.
fn carried(rule: &RuleWith<'_, OrCopy>, pieces: &[Piece], cell: Cell) -> Option<Value> {
    let mut sofar = None;
    for piece in pieces {
        if piece.new == cell {
            sofar = merged(rule, sofar, part(rule, pieces, piece));
        }
    }
    sofar
}

fn merged(rule: &RuleWith<'_, OrCopy>, sofar: Option<Value>, part: Option<Value>) -> Option<Value> {
    match (sofar, part) {
        (Some(x), Some(y)) => Some(rule.merged(x, y)),
        (None, part) => part,
        (sofar, None) => sofar,
    }
}

/// The value that a cell has after a line, where dimension 0 has the rule of this number, and each further dimension
/// that of the next.
fn wanted_value(first_rule: u64, pieces: &[Piece], cell: Cell) -> Option<Value> {
    let rule = rule_of(first_rule.wrapping_add(cell.dim))?;
    let hook = OrCopy;
    carried(&RuleWith { rule, hook: &hook }, pieces, cell)
}

/// What has to stand after a line: the darts and cells that do, with the values that are wanted.
fn wanted(
    alloc: Global,
    first_rule: u64,
    pieces: &[Piece],
    after: &[Standing],
) -> Result<Vec<Standing>, AllocError> {
    let mut wanted = Vec::new(alloc);
    for standing in after {
        let value = wanted_value(first_rule, pieces, standing.cell);
        wanted.push(Standing { value, ..*standing })?;
    }
    Ok(wanted)
}

/// Obeys a line, compares all values, and answers whether some old cell with a value was joined or parted.
pub fn check_line<K: Edits<DIM>, const DIM: usize>(
    rt: &impl Abort,
    alloc: Global,
    map: &mut Map<'_, K, OrCopy, DIM>,
    first_rule: u64,
    line: &Line,
) -> Result<bool, Refused> {
    let before = standings(alloc, map)?;
    let answer = obey(alloc, map, line);
    let after = standings(alloc, map)?;
    if answer.is_err() {
        assert!(rt; after.as_slice() == before.as_slice());
        return Ok(false);
    }
    Ok(check_obeyed(rt, alloc, first_rule, line, &before, &after)?)
}

/// Compares all values after a line that was obeyed.
fn check_obeyed(
    rt: &impl Abort,
    alloc: Global,
    first_rule: u64,
    line: &Line,
    before: &[Standing],
    after: &[Standing],
) -> Result<bool, AllocError> {
    let pieces = pieces(alloc, line, before, after)?;
    let wanted = wanted(alloc, first_rule, &pieces, after)?;
    assert!(rt; after == wanted.as_slice());
    Ok(pieces.iter().any(|piece| piece.old != piece.new))
}

/// Makes three triangles and a dart alone.
fn make_darts<K: Edits<DIM>, const DIM: usize>(
    alloc: Global,
    map: &mut Map<'_, K, OrCopy, DIM>,
) -> Result<(), Refused> {
    for _ in 0..3 {
        obey(alloc, map, &Line::Polygon { sides: 3 })?;
    }
    obey(alloc, map, &Line::Dart)?;
    Ok(())
}

/// Gives dimension 0 the rule of this number, and each further dimension that of the next, and all their cells values.
/// A dimension whose number stands for no rule gets nothing.
fn set_rules<K: Edits<DIM>, const DIM: usize>(
    alloc: Global,
    map: &mut Map<'_, K, OrCopy, DIM>,
    first_rule: u64,
    random: &mut Random,
) -> Result<(), Refused> {
    for dim in 0..map.links().dimension() as u64 + 1 {
        if let Some((merge, split)) = names_of(first_rule.wrapping_add(dim)) {
            obey(alloc, map, &Line::Rule { dim, merge, split })?;
            set_values(alloc, map, dim, random)?;
        }
    }
    Ok(())
}

fn set_values<K: Edits<DIM>, const DIM: usize>(
    alloc: Global,
    map: &mut Map<'_, K, OrCopy, DIM>,
    dim: u64,
    random: &mut Random,
) -> Result<(), Refused> {
    for number in 0..map.links().made() {
        let dart = u64::from(number) + 1;
        let value = random.value();
        obey(alloc, map, &Line::Set { dim, dart, value })?;
    }
    Ok(())
}

/// Checks random lines, and answers how many of them joined or parted cells with values.
fn check_random_lines<K: Edits<DIM>, const DIM: usize>(
    rt: &impl Abort,
    alloc: Global,
    map: &mut Map<'_, K, OrCopy, DIM>,
    first_rule: u64,
    random: &mut Random,
) -> Result<u32, Refused> {
    let mut carrying: u32 = 0;
    for _ in 0..200 {
        let darts = u64::from(map.links().made());
        let line = random.line(map.links().dimension() as u64, darts);
        if check_line(rt, alloc, map, first_rule, &line)? {
            carrying = carrying.wrapping_add(1);
        }
    }
    Ok(carrying)
}

/// Makes darts with values, sets a mark, and answers what stands there.
fn begin_script<K: Edits<DIM>, const DIM: usize>(
    alloc: Global,
    map: &mut Map<'_, K, OrCopy, DIM>,
    first_rule: u64,
    random: &mut Random,
) -> Result<Vec<Standing>, Refused> {
    make_darts(alloc, map)?;
    set_rules(alloc, map, first_rule, random)?;
    obey(alloc, map, &Line::Mark { name: Name::Begin })?;
    standings(alloc, map)
}

/// Goes back to the mark and forth again, and compares what stands there and there.
fn check_return<K: Edits<DIM>, const DIM: usize>(
    rt: &impl Abort,
    alloc: Global,
    map: &mut Map<'_, K, OrCopy, DIM>,
    begin: &[Standing],
) -> Result<(), Refused> {
    let end = standings(alloc, map)?;
    obey(alloc, map, &Line::Undo { name: Name::Begin })?;
    assert!(rt; standings(alloc, map)?.as_slice() == begin);
    obey(alloc, map, &Line::Redo { name: Name::Begin })?;
    assert!(rt; standings(alloc, map)?.as_slice() == end.as_slice());
    Ok(())
}

/// Checks a random script, takes it back and gives it again, and answers how many of its lines joined or parted cells with values.
fn check_script<K: Edits<DIM>, const DIM: usize>(
    rt: &impl Abort,
    alloc: Global,
    map: &mut Map<'_, K, OrCopy, DIM>,
    first_rule: u64,
) -> Result<u32, Refused> {
    let mut random = Random { state: first_rule };
    let begin = begin_script(alloc, map, first_rule, &mut random)?;
    let carrying = check_random_lines(rt, alloc, map, first_rule, &mut random)?;
    check_return(rt, alloc, map, &begin)?;
    Ok(carrying)
}

/// Checks a random script over a new map.
fn check_new_map<K: Edits<DIM>, const DIM: usize>(
    rt: &impl Abort,
    alloc: Global,
    first_rule: u64,
) -> Result<u32, Refused>
    requires low { 2 ≤ DIM }
    requires high { DIM ≤ 8 }
{
    let mut map = Map::<'_, K, OrCopy, DIM>::new(alloc, &OrCopy);
    check_script(rt, alloc, &mut map, first_rule)
}

/// Checks a script for each choice of rules, and that enough of their lines joined or parted cells with values.
fn check_scripts<K: Edits<DIM>, const DIM: usize>(
    rt: &impl Abort,
    alloc: Global,
    enough: u32,
) -> Result<(), Refused>
    requires low { 2 ≤ DIM }
    requires high { DIM ≤ 8 }
{
    let mut carrying: u32 = 0;
    for first_rule in 0..7 {
        let more = check_new_map::<K, DIM>(rt, alloc, first_rule)?;
        carrying = carrying.wrapping_add(more);
    }
    assert!(rt; carrying > enough, "{carrying} lines");
    Ok(())
}

#[test]
fn values_of_generalized_maps_in_dimension_two(rt: HostRuntime) -> Result<(), Fail> {
    Ok(check_scripts::<Alpha, 2>(&rt, rt.alloc(), 60)?)
}

#[test]
fn values_of_generalized_maps_in_dimension_three(rt: HostRuntime) -> Result<(), Fail> {
    Ok(check_scripts::<Alpha, 3>(&rt, rt.alloc(), 60)?)
}

#[test]
fn values_of_combinatorial_maps_in_dimension_two(rt: HostRuntime) -> Result<(), Fail> {
    Ok(check_scripts::<Beta, 2>(&rt, rt.alloc(), 60)?)
}

#[test]
fn values_of_combinatorial_maps_in_dimension_three(rt: HostRuntime) -> Result<(), Fail> {
    Ok(check_scripts::<Beta, 3>(&rt, rt.alloc(), 40)?)
}
