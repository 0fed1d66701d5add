ghost use Rattle.std.specs.Prelude.{◌≡◌, ◌<◌, ◌≤◌, [], ◌∷◌, All, None};
ghost use Rattle.map_defs.specs.LinkWords.{IsWithin};

use cell_walk::{
    CellWalk, cell, cell_lists, cells, cells_of, components, counts, least, orbit, orbits_of,
    reaches, same,
};
use flat_lists::Lists;
use link_rows::{Change, Links, PlainEdit, polygon_edit};
use map_kind::{Alpha, Beta, Dart, Kind, LinkWord};
use std::alloc::{AllocError, Global};
use std::process::Abort;

/// A polygon of so many sides, numbered on from the darts that were made.
fn polygon<K: Kind>(rt: &impl Abort, alloc: Global, links: &mut Links<K, 2>, sides: u32)
    requires low { 3 ≤ sides }
    requires high { sides ≤ 9 }
{
    assert!(rt; K::per_side() <= 2);
    assert!(rt; links.reserve(2 * sides).is_ok());
    match polygon_edit(alloc, links, sides) {
        Ok(edit) => links.apply(&edit),
        Err(_) => panic!(rt; "no memory"),
    }
}

/// A triangle and a square: of the darts 1 to 6 and 7 to 14 in a generalized map, and 1 to 3 and 4 to 7 in a combinatorial
/// map.
fn triangle_and_square<K: Kind>(rt: &impl Abort, alloc: Global) -> Links<K, 2> {
    let mut links = Links::<K, 2>::new(alloc);
    polygon(rt, alloc, &mut links, 3);
    polygon(rt, alloc, &mut links, 4);
    links
}

fn dart(rt: &impl Abort, number: u32) -> Dart {
    Dart::new(number).expect(rt, "0 is no dart")
}

/// Compares the numbers of darts.
fn check(rt: &impl Abort, darts: &[Dart], wanted: &[u32]) {
    assert_eq!(rt; darts.len(), wanted.len());
    for (dart, number) in darts.iter().zip(wanted) {
        assert_eq!(rt; dart.number(), *number);
    }
}

/// Compares the numbers of the darts of lists.
fn check_all(rt: &impl Abort, lists: &Lists<Dart>, wanted: &[&[u32]]) {
    assert_eq!(rt; lists.len(), wanted.len());
    for (place, numbers) in wanted.iter().enumerate() {
        check(rt, lists.list(place), numbers);
    }
}

/// Compares the darts that words lead to from dart 9.
fn check_orbit(
    rt: &impl Abort,
    alloc: Global,
    links: &Links<Alpha, 2>,
    words: &[LinkWord],
    wanted: &[u32],
)
    requires { All (IsWithin 2) words.now }
{
    match orbit(alloc, links, words, dart(rt, 9)) {
        Ok(darts) => check(rt, &darts, wanted),
        Err(_) => panic!(rt; "no memory"),
    }
}

/// Walks along two words of two links, and along one link that is free.
fn check_words(rt: &impl Abort, alloc: Global, links: &Links<Alpha, 2>) {
    let words = [LinkWord::two(0, 1), LinkWord::two(1, 0)];
    check_orbit(rt, alloc, links, &words, &[7, 9, 11, 13]);
    check_orbit(rt, alloc, links, &[LinkWord::one(2)], &[9]);
}

#[test]
fn walks_along_the_words_alone(rt: HostRuntime) {
    let links = triangle_and_square::<Alpha>(&rt, rt.alloc());
    check_words(&rt, rt.alloc(), &links);
}

/// Looks in the face of dart 9 for a dart of it, and for another.
fn check_reaches(rt: &impl Abort, alloc: Global, links: &Links<Alpha, 2>) {
    let face = [LinkWord::one(0), LinkWord::one(1)];
    let from = dart(rt, 9);
    assert_eq!(rt; reaches(alloc, links, &face, from, dart(rt, 13)), Ok(true));
    assert_eq!(rt; reaches(alloc, links, &face, from, dart(rt, 1)), Ok(false));
}

/// Compares the darts of the sides of three darts.
fn check_sides(rt: &impl Abort, alloc: Global, links: &Links<Alpha, 2>) {
    let darts = [dart(rt, 9), dart(rt, 10), dart(rt, 1)];
    match orbits_of(alloc, links, &[LinkWord::one(0)], &darts) {
        Ok(sides) => check(rt, &sides, &[1, 2, 9, 10]),
        Err(_) => panic!(rt; "no memory"),
    }
}

#[test]
fn looks_for_a_dart_and_joins_orbits(rt: HostRuntime) {
    let links = triangle_and_square::<Alpha>(&rt, rt.alloc());
    check_reaches(&rt, rt.alloc(), &links);
    check_sides(&rt, rt.alloc(), &links);
}

/// Compares darts that were found.
fn check_found(rt: &impl Abort, found: Result<Vec<Dart>, AllocError>, wanted: &[u32]) {
    match found {
        Ok(darts) => check(rt, &darts, wanted),
        Err(_) => panic!(rt; "no memory"),
    }
}

/// Compares the darts of the cell of a dart.
fn check_cell<K: Kind, const DIM: usize>(
    rt: &impl Abort,
    alloc: Global,
    links: &Links<K, DIM>,
    dim: usize,
    number: u32,
    wanted: &[u32],
)
    requires { dim ≤ DIM }
{
    check_found(rt, cell(alloc, links, dim, dart(rt, number)), wanted);
}

/// Compares whether two darts lie in one cell.
fn check_same<K: Kind, const DIM: usize>(
    rt: &impl Abort,
    alloc: Global,
    links: &Links<K, DIM>,
    dim: usize,
    pair: (u32, u32),
    wanted: bool,
)
    requires { dim ≤ DIM }
{
    let one = dart(rt, pair.0);
    let other = dart(rt, pair.1);
    assert_eq!(rt; same(alloc, links, dim, one, other), Ok(wanted));
}

/// Compares the least dart of the face of a dart.
fn check_least<K: Kind>(
    rt: &impl Abort,
    alloc: Global,
    links: &Links<K, 2>,
    number: u32,
    wanted: u32,
) {
    assert_eq!(rt;
        least(alloc, links, 2, dart(rt, number)),
        Ok(dart(rt, wanted))
    );
}

/// Asks for the cells of darts in each dimension.
fn check_cells_of_darts(rt: &impl Abort, alloc: Global, links: &Links<Alpha, 2>) {
    check_cell(rt, alloc, links, 0, 1, &[1, 6]);
    check_cell(rt, alloc, links, 1, 14, &[13, 14]);
    check_cell(rt, alloc, links, 2, 9, &[7, 8, 9, 10, 11, 12, 13, 14]);
    check_same(rt, alloc, links, 0, (2, 3), true);
    check_same(rt, alloc, links, 1, (2, 3), false);
    check_least(rt, alloc, links, 9, 7);
}

#[test]
fn finds_the_cells_of_a_dart(rt: HostRuntime) {
    let links = triangle_and_square::<Alpha>(&rt, rt.alloc());
    check_cells_of_darts(&rt, rt.alloc(), &links);
}

/// Asks one walk for the edges of two darts.
fn check_walk(rt: &impl Abort, alloc: Global, links: &Links<Alpha, 2>) {
    match CellWalk::new(alloc, links, 1) {
        Ok(edges) => {
            check_found(rt, edges.cell(alloc, links, dart(rt, 14)), &[13, 14]);
            check_found(rt, edges.cell(alloc, links, dart(rt, 1)), &[1, 2]);
        }
        Err(_) => panic!(rt; "no memory"),
    }
}

#[test]
fn walks_around_cells_of_one_dimension(rt: HostRuntime) {
    let links = triangle_and_square::<Alpha>(&rt, rt.alloc());
    check_walk(&rt, rt.alloc(), &links);
}

/// Compares the darts of the edges of darts.
fn check_edges<K: Kind>(
    rt: &impl Abort,
    alloc: Global,
    links: &Links<K, 2>,
    darts: &[Dart],
    wanted: &[&[u32]],
) {
    match cells_of(alloc, links, 1, darts) {
        Ok(edges) => check_all(rt, &edges, wanted),
        Err(_) => panic!(rt; "no memory"),
    }
}

/// Compares the darts of all cells of a dimension, and how many least darts name them.
fn check_lists<K: Kind>(
    rt: &impl Abort,
    alloc: Global,
    links: &Links<K, 2>,
    dim: usize,
    wanted: &[&[u32]],
)
    requires { dim ≤ 2 }
{
    match cell_lists(alloc, links, dim) {
        Ok(lists) => {
            check_all(rt, &lists.darts, wanted);
            assert_eq!(rt; lists.least.len(), wanted.len());
        }
        Err(_) => panic!(rt; "no memory"),
    }
}

/// The darts of the vertices of a triangle and a square.
const VERTICES: [&[u32]; 7] = [
    &[1, 6],
    &[2, 3],
    &[4, 5],
    &[7, 14],
    &[8, 9],
    &[10, 11],
    &[12, 13],
];

#[test]
fn lists_the_darts_of_cells(rt: HostRuntime) {
    let links = triangle_and_square::<Alpha>(&rt, rt.alloc());
    let darts = [dart(&rt, 14), dart(&rt, 1), dart(&rt, 13)];
    check_edges(
        &rt,
        rt.alloc(),
        &links,
        &darts,
        &[&[13, 14], &[1, 2], &[13, 14]],
    );
    check_lists(&rt, rt.alloc(), &links, 0, &VERTICES);
}

/// Compares the least darts of all cells of a dimension.
fn check_cells(rt: &impl Abort, alloc: Global, links: &Links<Alpha, 2>, dim: usize, wanted: &[u32])
    requires { dim ≤ 2 }
{
    match cells(alloc, links, dim) {
        Ok(least) => check(rt, &least, wanted),
        Err(_) => panic!(rt; "no memory"),
    }
}

/// Compares the least darts of all components.
fn check_components<K: Kind>(rt: &impl Abort, alloc: Global, links: &Links<K, 2>, wanted: &[u32]) {
    match components(alloc, links) {
        Ok(least) => check(rt, &least, wanted),
        Err(_) => panic!(rt; "no memory"),
    }
}

/// Compares how many darts, cells of each dimension, and components there are.
fn check_counts<K: Kind, const DIM: usize>(
    rt: &impl Abort,
    alloc: Global,
    links: &Links<K, DIM>,
    wanted: &[u64],
) {
    match counts(alloc, links) {
        Ok(counts) => assert_eq!(rt; counts.as_slice(), wanted),
        Err(_) => panic!(rt; "no memory"),
    }
}

/// Asks for all cells of a generalized map.
fn check_whole_map(rt: &impl Abort, alloc: Global, links: &Links<Alpha, 2>) {
    check_cells(rt, alloc, links, 0, &[1, 2, 4, 7, 8, 10, 12]);
    check_cells(rt, alloc, links, 2, &[1, 7]);
    check_components(rt, alloc, links, &[1, 7]);
    check_counts(rt, alloc, links, &[14, 7, 7, 2, 2]);
}

#[test]
fn names_and_counts_the_cells_of_a_map(rt: HostRuntime) {
    let links = triangle_and_square::<Alpha>(&rt, rt.alloc());
    check_whole_map(&rt, rt.alloc(), &links);
}

fn change(dart: Dart, link: usize, new: u32) -> Change
    ensures { result ≡ record { dart = dart; link = link; old = 0; new = new } }
{
    Change::new(dart, link, 0, new)
}

/// Two darts that are joined by link 8.
fn two_darts(rt: &impl Abort, alloc: Global, links: &mut Links<Alpha, 8>)
    requires { links.old.rows ≡ None ∷ [] }
{
    let one = Dart::new(1).unwrap();
    let two = Dart::new(2).unwrap();
    assert!(rt; links.reserve(2).is_ok());
    match Vec::from_slice(alloc, &[change(one, 8, 2), change(two, 8, 1)]) {
        Ok(changes) => links.apply_plain(&PlainEdit {
            births: 2,
            deaths: Vec::new(alloc),
            changes,
        }),
        Err(_) => panic!(rt; "no memory"),
    }
}

// Two darts that are joined by link 8 share their cells but for that of dimension 8.
#[test]
fn goes_up_to_dimension_8(rt: HostRuntime) {
    let mut links = Links::<Alpha, 8>::new(rt.alloc());
    two_darts(&rt, rt.alloc(), &mut links);
    check_cell(&rt, rt.alloc(), &links, 7, 2, &[1, 2]);
    check_counts(&rt, rt.alloc(), &links, &[2, 1, 1, 1, 1, 1, 1, 1, 1, 2, 1]);
}

/// Asks for the cells of darts of a combinatorial map.
fn check_directed_cells(rt: &impl Abort, alloc: Global, links: &Links<Beta, 2>) {
    check_cell(rt, alloc, links, 2, 6, &[4, 5, 6, 7]);
    check_same(rt, alloc, links, 0, (1, 2), false);
    check_least(rt, alloc, links, 3, 1);
    let darts = [dart(rt, 7), dart(rt, 2)];
    check_edges(rt, alloc, links, &darts, &[&[7], &[2]]);
}

// The words of a combinatorial map are of its own kind: an edge is its darts alone, and a vertex one dart of each face.
#[test]
fn finds_the_cells_of_a_combinatorial_map(rt: HostRuntime) {
    let links = triangle_and_square::<Beta>(&rt, rt.alloc());
    check_directed_cells(&rt, rt.alloc(), &links);
}

/// Asks for all cells of a combinatorial map.
fn check_whole_directed_map(rt: &impl Abort, alloc: Global, links: &Links<Beta, 2>) {
    check_lists(rt, alloc, links, 2, &[&[1, 2, 3], &[4, 5, 6, 7]]);
    check_components(rt, alloc, links, &[1, 4]);
    check_counts(rt, alloc, links, &[7, 7, 7, 2, 2]);
}

#[test]
fn counts_the_cells_of_a_combinatorial_map(rt: HostRuntime) {
    let links = triangle_and_square::<Beta>(&rt, rt.alloc());
    check_whole_directed_map(&rt, rt.alloc(), &links);
}

/// Two sides in turn, 1 and 2, and the other side 3 of 1.
fn three_sides(rt: &impl Abort, alloc: Global, links: &mut Links<Beta, 2>)
    requires { links.old.rows ≡ None ∷ [] }
{
    let one = Dart::new(1).unwrap();
    let two = Dart::new(2).unwrap();
    let three = Dart::new(3).unwrap();
    let changes = [
        change(one, 1, 2),
        change(two, 0, 1),
        change(one, 2, 3),
        change(three, 2, 1),
    ];
    assert!(rt; links.reserve(3).is_ok());
    match Vec::from_slice(alloc, &changes) {
        Ok(changes) => links.apply_plain(&PlainEdit {
            births: 3,
            deaths: Vec::new(alloc),
            changes,
        }),
        Err(_) => panic!(rt; "no memory"),
    }
}

// The vertex where 1 and 3 meet in 2.
#[test]
fn goes_round_a_vertex_of_a_combinatorial_map(rt: HostRuntime) {
    let mut links = Links::<Beta, 2>::new(rt.alloc());
    three_sides(&rt, rt.alloc(), &mut links);
    check_cell(&rt, rt.alloc(), &links, 0, 2, &[2, 3]);
    check_same(&rt, rt.alloc(), &links, 0, (3, 2), true);
    check_counts(&rt, rt.alloc(), &links, &[3, 2, 2, 2, 1]);
}
