//! What no clause says: that calls are obeyed where memory is there. Each test is a table of lines and their answers.
ghost use Rattle.std.specs.Prelude.{◌≡◌, ◌≤◌, [], ◌∷◌, None, map, IfOk};
ghost use Rattle.map_defs.specs.Kind.{alpha};
ghost use Rattle.map_defs.specs.Rows.{links_of};
ghost use Rattle.map_defs.specs.Laws.{Laws};
ghost use Rattle.map_defs.specs.Edits.{Fits, after_edit};
ghost use Rattle.machine_defs.specs.State.{empty_state};

use crate::lines::{Line, Name, Wanted, check_lines};
use attr_rules::OrCopy;
use cell_walk::{cell_lists, cells};
use link_rows::{Edit, Links, PlainEdit, polygon_edit};
use map_core::{Done, Map};
use map_kind::{Alpha, Dart, Place, Refusal, Refused, Value};
use std::alloc::{AllocError, Global};
use std::process::Abort;
use std::test::Fail;

/// Darts, polygons, sewing and unsewing.
#[rattlefmt::skip]
const DARTS: [(Line, Wanted); 10] = [
    (Line::Polygon { sides: 3 }, Wanted::Made { first: 1, count: 6 }),
    (Line::Polygon { sides: 3 }, Wanted::Made { first: 7, count: 6 }),
    (Line::Dart, Wanted::Made { first: 13, count: 1 }),
    (Line::Del { dart: 1 }, Wanted::No(Refusal::Linked)),
    (Line::Del { dart: 13 }, Wanted::Done),
    (Line::Sew { link: 2, dart: 1, other: 8 }, Wanted::Done),
    (Line::Sew { link: 2, dart: 1, other: 8 }, Wanted::No(Refusal::NotFree)),
    (Line::Unsew { link: 2, dart: 7 }, Wanted::Done),
    (Line::Unsew { link: 2, dart: 1 }, Wanted::No(Refusal::AlreadyFree)),
    (Line::Sew { link: 3, dart: 1, other: 8 }, Wanted::No(Refusal::BadDim)),
];

/// A square that is folded.
#[rattlefmt::skip]
const FOLDED: [(Line, Wanted); 2] = [
    (Line::Polygon { sides: 4 }, Wanted::Made { first: 1, count: 8 }),
    (Line::Sew { link: 3, dart: 1, other: 2 }, Wanted::Done),
];

/// A vertex and an edge in the folded square; the vertex is removed, and an edge contracted.
#[rattlefmt::skip]
const CELLS: [(Line, Wanted); 10] = [
    (Line::Vertex { dart: 9 }, Wanted::No(Refusal::NoDart)),
    (Line::Edge { dart: 1, other: 4 }, Wanted::Made { first: 9, count: 8 }),
    (Line::Edge { dart: 1, other: 1 }, Wanted::No(Refusal::SameCorner)),
    (Line::Face { dart: 1, other: 3 }, Wanted::No(Refusal::NotClosed)),
    (Line::Vertex { dart: 1 }, Wanted::Made { first: 17, count: 2 }),
    (Line::Remove { dim: 0, dart: 17 }, Wanted::Done),
    (Line::Remove { dim: 0, dart: 17 }, Wanted::No(Refusal::NoDart)),
    (Line::Contract { dim: 0, dart: 1 }, Wanted::No(Refusal::NotContractible)),
    (Line::Contract { dim: 1, dart: 1 }, Wanted::Done),
    (Line::Dual, Wanted::No(Refusal::Boundary)),
];

/// Two triangles that are one sphere, and their dual; a face that is removed is taken back.
#[rattlefmt::skip]
const SPHERE: [(Line, Wanted); 12] = [
    (Line::Polygon { sides: 3 }, Wanted::Made { first: 1, count: 6 }),
    (Line::Polygon { sides: 3 }, Wanted::Made { first: 7, count: 6 }),
    (Line::Sew { link: 2, dart: 1, other: 7 }, Wanted::Done),
    (Line::Sew { link: 2, dart: 3, other: 9 }, Wanted::Done),
    (Line::Sew { link: 2, dart: 5, other: 11 }, Wanted::Done),
    (Line::Mark { name: Name::Begin }, Wanted::Done),
    (Line::Dual, Wanted::Done),
    (Line::Mark { name: Name::Begin }, Wanted::No(Refusal::MarkTaken)),
    (Line::Remove { dim: 2, dart: 1 }, Wanted::Done),
    (Line::Undo { name: Name::End }, Wanted::No(Refusal::NoMark)),
    (Line::Undo { name: Name::Begin }, Wanted::Done),
    (Line::Dual, Wanted::Done),
];

/// A square with a dangling edge, that is closed and gets a vertex in its middle.
#[rattlefmt::skip]
const CLOSED: [(Line, Wanted); 8] = [
    (Line::Polygon { sides: 4 }, Wanted::Made { first: 1, count: 8 }),
    (Line::Dangle { dart: 9 }, Wanted::No(Refusal::NoDart)),
    (Line::Dangle { dart: 1 }, Wanted::Made { first: 9, count: 4 }),
    (Line::Close { link: 3 }, Wanted::No(Refusal::BadDim)),
    (Line::Close { link: 2 }, Wanted::Made { first: 13, count: 8 }),
    (Line::Center { dart: 13 }, Wanted::Made { first: 21, count: 16 }),
    (Line::Dart, Wanted::Made { first: 37, count: 1 }),
    (Line::Center { dart: 37 }, Wanted::No(Refusal::NotClosed)),
];

/// A step is taken back and given again.
#[rattlefmt::skip]
const AGAIN: [(Line, Wanted); 6] = [
    (Line::Mark { name: Name::Begin }, Wanted::Done),
    (Line::Polygon { sides: 3 }, Wanted::Made { first: 1, count: 6 }),
    (Line::Undo { name: Name::Begin }, Wanted::Done),
    (Line::Redo { name: Name::End }, Wanted::No(Refusal::NoRedo)),
    (Line::Redo { name: Name::Begin }, Wanted::Done),
    (Line::Redo { name: Name::Begin }, Wanted::No(Refusal::NoRedo)),
];

/// Two marks are set, and the first is gone back to.
#[rattlefmt::skip]
const MARKS: [(Line, Wanted); 4] = [
    (Line::Mark { name: Name::Begin }, Wanted::Done),
    (Line::Dart, Wanted::Made { first: 1, count: 1 }),
    (Line::Mark { name: Name::End }, Wanted::Done),
    (Line::Undo { name: Name::Begin }, Wanted::Done),
];

/// A triangle.
#[rattlefmt::skip]
const TRIANGLE: [(Line, Wanted); 1] = [
    (Line::Polygon { sides: 3 }, Wanted::Made { first: 1, count: 6 }),
];

/// Values are set, replaced and cleared.
#[rattlefmt::skip]
const VALUES: [(Line, Wanted); 9] = [
    (Line::Polygon { sides: 3 }, Wanted::Made { first: 1, count: 6 }),
    (Line::Set { dim: 0, dart: 1, value: FIVE }, Wanted::No(Refusal::NoRule)),
    (Line::Rule { dim: 0, merge: "last", split: "spam" }, Wanted::No(Refusal::NoRule)),
    (Line::Rule { dim: 3, merge: "last", split: "copy" }, Wanted::No(Refusal::BadDim)),
    (Line::Rule { dim: 0, merge: "last", split: "copy" }, Wanted::Done),
    (Line::Set { dim: 0, dart: 2, value: FIVE }, Wanted::Done),
    (Line::Set { dim: 0, dart: 3, value: SEVEN }, Wanted::Done),
    (Line::Set { dim: 0, dart: 4, value: TWO }, Wanted::Done),
    (Line::Clear { dim: 0, dart: 5 }, Wanted::Done),
];

/// Two triangles with values, that are sewn: the values of the joined cells are merged.
#[rattlefmt::skip]
const MERGED: [(Line, Wanted); 9] = [
    (Line::Polygon { sides: 3 }, Wanted::Made { first: 1, count: 6 }),
    (Line::Polygon { sides: 3 }, Wanted::Made { first: 7, count: 6 }),
    (Line::Rule { dim: 0, merge: "last", split: "copy" }, Wanted::Done),
    (Line::Rule { dim: 1, merge: "sum", split: "share" }, Wanted::Done),
    (Line::Set { dim: 0, dart: 1, value: FIVE }, Wanted::Done),
    (Line::Set { dim: 0, dart: 8, value: TWO }, Wanted::Done),
    (Line::Set { dim: 1, dart: 1, value: FIVE }, Wanted::Done),
    (Line::Set { dim: 1, dart: 8, value: TWO }, Wanted::Done),
    (Line::Sew { link: 2, dart: 1, other: 8 }, Wanted::Done),
];

/// The values of darts then, by dimension.
#[rattlefmt::skip]
const MERGED_VALUES: [(u64, u64, Option<Value>); 3] = [
    (0, 6, Some(TWO)),
    (1, 7, Some(SEVEN)),
    (2, 7, None),
];

/// The triangles are unsewn: the values of cells that part go to the pieces.
#[rattlefmt::skip]
const SPLIT: [(Line, Wanted); 1] = [
    (Line::Unsew { link: 2, dart: 1 }, Wanted::Done),
];

/// The values of darts then, by dimension.
#[rattlefmt::skip]
const SPLIT_VALUES: [(u64, u64, Option<Value>); 4] = [
    (0, 1, Some(TWO)),
    (0, 9, Some(TWO)),
    (1, 2, Some(FOUR)),
    (1, 7, Some(THREE)),
];

const TWO: Value = Value { a: 2, b: 2, c: 2 };

const THREE: Value = Value { a: 3, b: 3, c: 3 };

const FOUR: Value = Value { a: 4, b: 4, c: 4 };

const FIVE: Value = Value { a: 5, b: 5, c: 5 };

const SEVEN: Value = Value { a: 7, b: 7, c: 7 };

/// The map after lines, whose answers are compared.
fn map_after<const DIM: usize>(
    rt: &impl Abort,
    alloc: Global,
    rows: &[(Line, Wanted)],
) -> Map<'static, Alpha, OrCopy, DIM>
    requires low { 2 ≤ DIM }
    requires high { DIM ≤ 8 }
{
    let mut map = Map::<'_, Alpha, OrCopy, DIM>::new(alloc, &OrCopy);
    check_lines(rt, alloc, &mut map, rows);
    map
}

/// Compares the counts of a map.
fn check_counts<const DIM: usize>(
    rt: &impl Abort,
    alloc: Global,
    map: &Map<'_, Alpha, OrCopy, DIM>,
    wanted: &[u64],
) -> Result<(), Fail> {
    let counts = map.count(alloc)?;
    assert_eq!(rt; counts.as_slice(), wanted);
    Ok(())
}

#[test]
fn makes_and_sews_darts(rt: HostRuntime) -> Result<(), Fail> {
    let map = map_after::<2>(&rt, rt.alloc(), &DARTS);
    check_counts(&rt, rt.alloc(), &map, &[12, 6, 6, 2, 2])
}

#[test]
fn inserts_and_removes_cells(rt: HostRuntime) {
    let mut map = map_after::<3>(&rt, rt.alloc(), &FOLDED);
    check_lines(&rt, rt.alloc(), &mut map, &CELLS);
}

#[test]
fn inserts_a_face(rt: HostRuntime) {
    let mut map = map_after::<3>(&rt, rt.alloc(), &FOLDED);
    let made = map.face(rt.alloc(), &[1, 3, 5, 7]);
    assert_eq!(&rt; made, Ok(Done { first: 9, count: 8 }));
}

#[test]
fn turns_a_map_and_goes_back(rt: HostRuntime) -> Result<(), Fail> {
    let map = map_after::<2>(&rt, rt.alloc(), &SPHERE);
    check_counts(&rt, rt.alloc(), &map, &[12, 2, 3, 3, 1])
}

#[test]
fn closes_a_map(rt: HostRuntime) -> Result<(), Fail> {
    let map = map_after::<2>(&rt, rt.alloc(), &CLOSED);
    check_counts(&rt, rt.alloc(), &map, &[37, 7, 10, 6, 2])
}

#[test]
fn gives_again_what_was_taken_back(rt: HostRuntime) -> Result<(), Fail> {
    let map = map_after::<2>(&rt, rt.alloc(), &AGAIN);
    check_counts(&rt, rt.alloc(), &map, &[6, 3, 3, 1, 1])
}

#[test]
fn counts_standing_marks(rt: HostRuntime) {
    let map = map_after::<2>(&rt, rt.alloc(), &MARKS);
    assert_eq!(&rt; map.mark_count(), 1);
}

#[test]
fn a_polygon_in_dimension_eight(rt: HostRuntime) -> Result<(), Fail> {
    let map = map_after::<8>(&rt, rt.alloc(), &TRIANGLE);
    check_counts(&rt, rt.alloc(), &map, &[6, 3, 3, 1, 1, 1, 1, 1, 1, 1, 1])
}

/// Asks a triangle, made of darts 1 to 6, of a cell.
fn check_cell(
    rt: &impl Abort,
    alloc: Global,
    map: &Map<'_, Alpha, OrCopy, 2>,
) -> Result<(), Refused> {
    assert_eq!(rt; map.cell(alloc, 2, 1)?.len(), 6);
    assert!(rt; map.same(alloc, 0, 2, 3)?);
    assert!(rt; map.free(2, 5) == Ok(true));
    Ok(())
}

/// Asks the triangle what can be done to it.
fn check_offers(
    rt: &impl Abort,
    alloc: Global,
    map: &Map<'_, Alpha, OrCopy, 2>,
) -> Result<(), Refused> {
    assert!(rt; map.sewable(alloc, 2, 1, 3)?);
    assert!(rt; map.removable(alloc, 2, 1)?);
    assert!(rt; map.contractible(alloc, 1, 1)?);
    Ok(())
}

/// Asks the triangle all questions.
fn check_questions(
    rt: &impl Abort,
    alloc: Global,
    map: &Map<'_, Alpha, OrCopy, 2>,
) -> Result<(), Fail> {
    check_cell(rt, alloc, map)?;
    check_offers(rt, alloc, map)?;
    Ok(())
}

#[test]
fn answers_questions(rt: HostRuntime) -> Result<(), Fail> {
    let map = map_after::<2>(&rt, rt.alloc(), &TRIANGLE);
    check_questions(&rt, rt.alloc(), &map)
}

/// Compares the listing of a triangle.
fn check_listing(
    rt: &impl Abort,
    alloc: Global,
    map: &Map<'_, Alpha, OrCopy, 2>,
) -> Result<(), Fail> {
    let listing = map.listing(alloc)?;
    assert_eq!(rt; (listing.letter, listing.dim, listing.made), (b'g', 2, 6));
    let third = listing.rows.get(2).ok_or("no row")?;
    assert_eq!(rt;
        (third.dart.number(), third.links.as_slice()),
        (3, [4, 2, 0].as_slice())
    );
    Ok(())
}

#[test]
fn lists_a_triangle(rt: HostRuntime) -> Result<(), Fail> {
    let map = map_after::<2>(&rt, rt.alloc(), &TRIANGLE);
    check_listing(&rt, rt.alloc(), &map)
}

/// Compares the value of each dimension and dart.
fn check_values(
    rt: &impl Abort,
    map: &Map<'_, Alpha, OrCopy, 2>,
    rows: &[(u64, u64, Option<Value>)],
) {
    for (dim, dart, value) in rows {
        assert_eq!(rt; map.value(*dim, *dart), Ok(*value), "{dart}");
    }
}

#[test]
fn keeps_values_of_cells(rt: HostRuntime) {
    let map = map_after::<2>(&rt, rt.alloc(), &VALUES);
    check_values(
        &rt,
        &map,
        &[(0, 2, Some(SEVEN)), (0, 4, None), (0, 1, None)],
    );
}

#[test]
fn carries_values(rt: HostRuntime) {
    let mut map = map_after::<2>(&rt, rt.alloc(), &MERGED);
    check_values(&rt, &map, &MERGED_VALUES);
    check_lines(&rt, rt.alloc(), &mut map, &SPLIT);
    check_values(&rt, &map, &SPLIT_VALUES);
}

/// These darts, each with the same value.
fn places_at(alloc: Global, darts: &[Dart], value: Value) -> Result<Vec<Place>, AllocError>
    ensures { IfOk result (λ places. map (λ place. place.dart) places.items ≡ darts.now) }
{
    let mut places = Vec::new(alloc);
    for dart in darts {
        places.push(Place { dart: *dart, value })?;
    }
    Ok(places)
}

/// An edit told by changes alone.
fn plain(alloc: Global, edit: &Edit) -> Result<PlainEdit, AllocError>
    ensures { IfOk result (λ plain. plain ≡ edit.now) }
{
    Ok(PlainEdit {
        births: edit.births,
        deaths: Vec::from_slice(alloc, &edit.deaths)?,
        changes: edit.all_changes(alloc)?,
    })
}

/// The edit that makes a triangle, and the links that it makes.
fn triangle(rt: &impl Abort, alloc: Global) -> Result<(PlainEdit, Links<Alpha, 2>), AllocError>
    ensures fits { IfOk result (λ made. Fits alpha 2 (None ∷ []) made.0) }
    ensures few { IfOk result (λ made. made.0.births ≤ 6) }
    ensures rows { IfOk result (λ made. made.1.rows ≡ after_edit 2 made.0 (None ∷ [])) }
    ensures laws { IfOk result (λ made. Laws alpha (links_of made.1.rows)) }
{
    let mut links = Links::<Alpha, 2>::new(alloc);
    assert!(rt; links.reserve(6).is_ok());
    let edit = polygon_edit(alloc, &links, 3)?;
    links.apply(&edit);
    Ok((plain(alloc, &edit)?, links))
}

/// Compares what loading answers, and the value of a vertex of the triangle that was loaded.
fn check_loaded(rt: &impl Abort, map: &Map<'_, Alpha, OrCopy, 2>, done: Done) {
    assert_eq!(rt; done, Done { first: 1, count: 6 });
    assert_eq!(rt; map.value(0, 5), Ok(Some(FIVE)));
}

/// Loads a triangle by its edit.
fn load_edit(
    rt: &impl Abort,
    alloc: Global,
    map: &mut Map<'_, Alpha, OrCopy, 2>,
) -> Result<(), Fail>
    requires { map.old.state ≡ empty_state alpha 2 }
{
    let (edit, links) = triangle(rt, alloc)?;
    let vertices = cells(alloc, &links, 0)?;
    let places = places_at(alloc, &vertices, FIVE)?;
    let done = map.load(alloc, &edit, &places)?;
    check_loaded(rt, map, done);
    Ok(())
}

/// Loads a triangle by its links.
fn load_links(
    rt: &impl Abort,
    alloc: Global,
    map: &mut Map<'_, Alpha, OrCopy, 2>,
) -> Result<(), Fail>
    requires { map.old.state ≡ empty_state alpha 2 }
{
    let (_, links) = triangle(rt, alloc)?;
    let vertices = cell_lists(alloc, &links, 0)?;
    let places = places_at(alloc, &vertices.least, FIVE)?;
    let done = map.load_links(alloc, links, &places, &vertices.darts)?;
    check_loaded(rt, map, done);
    Ok(())
}

#[test]
fn loads_the_edit_of_a_map(rt: HostRuntime) -> Result<(), Fail> {
    let mut map = Map::<'_, Alpha, OrCopy, 2>::new(rt.alloc(), &OrCopy);
    load_edit(&rt, rt.alloc(), &mut map)
}

#[test]
fn loads_the_links_of_a_map(rt: HostRuntime) -> Result<(), Fail> {
    let mut map = Map::<'_, Alpha, OrCopy, 2>::new(rt.alloc(), &OrCopy);
    load_links(&rt, rt.alloc(), &mut map)
}
