ghost use Rattle.std.specs.Prelude.{◌≡◌, ◌≢◌, ℕ, ◌≤◌, ◌<◌, ◌↔◌, AllPairs, length, IfOk, IsTrue};
ghost use Rattle.map_defs.specs.Rows.{links_of};
ghost use Rattle.map_defs.specs.Insertion.{FaceSeed, IsOnOneVolume, IsClosedPath, IsJoining};
ghost use Rattle.sewing.specs.Triples.{Lists};
ghost use Rattle.cell_edit.specs.Circles.{next_place, vertex_words, side_seed};

use crate::along::reached;
use cell_walk::reaches;
use link_rows::Links;
use map_kind::{Dart, Kind, LinkWord, is_generalized};
use sewing::Triple;
use std::alloc::{AllocError, Global};
use std::collections::BTreeSet;

/// Whether each side of a path ends, in the volume, where the next begins, and the last where the first does.
pub(crate) fn is_closed<K: Kind, const DIM: usize>(
    alloc: Global,
    links: &Links<K, DIM>,
    path: &[Dart],
) -> Result<bool, AllocError>
    requires { 2 ≤ DIM }
    ensures { IfOk result (λ closed. IsTrue closed ↔ IsClosedPath K.kind (links_of links.now.rows) path.now) }
{
    for place in 0..path.len() {
        let next = path[next_place(path.len(), place)];
        if !is_joining(alloc, links, path[place], next)? {
            return Ok(false);
        }
    }
    Ok(true)
}

/// Whether the side of `one` ends, in the volume, at the vertex where that of `next` begins.
fn is_joining<K: Kind, const DIM: usize>(
    alloc: Global,
    links: &Links<K, DIM>,
    one: Dart,
    next: Dart,
) -> Result<bool, AllocError>
    requires { 2 ≤ DIM }
    ensures { IfOk result (λ joining. IsTrue joining ↔ IsJoining K.kind (links_of links.now.rows) one next) }
{
    match links.link(one, K::inverse(0)) {
        Some(end) => reaches(alloc, links, &vertex_words::<K>(), next, end),
        None => Ok(false),
    }
}

/// The words around a vertex of a volume.
fn vertex_words<K: Kind>() -> [LinkWord; 2]
    ensures { result ≡ vertex_words K.kind }
{
    if is_generalized::<K>() {
        [LinkWord::one(1), LinkWord::one(2)]
    } else {
        [LinkWord::two(2, 1), LinkWord::two(0, 2)]
    }
}

/// The place after a place in a circle of so many places.
fn next_place(count: usize, place: usize) -> usize
    requires { place < count }
    ensures next { result ≡ next_place count place }
    ensures within { result < count }
{
    if place + 1 == count { 0 } else { place + 1 }
}

/// Whether all darts of a path lie on one side of one volume.
pub(crate) fn is_on_one_volume<K: Kind, const DIM: usize>(
    alloc: Global,
    links: &Links<K, DIM>,
    path: &[Dart],
) -> Result<bool, AllocError>
    requires low { 2 ≤ DIM }
    requires some { 1 ≤ length path.now }
    ensures { IfOk result (λ one_volume. IsTrue one_volume ↔ IsOnOneVolume (links_of links.now.rows) path.now) }
{
    let volume = reached(alloc, links, &[0, 1, 2], &[path[0]])?;
    for dart in path {
        if volume.binary_search(dart).is_err() {
            return Ok(false);
        }
    }
    Ok(true)
}

/// Whether each dart stands once in the list.
pub(crate) fn are_apart(alloc: Global, darts: &[Dart]) -> Result<bool, AllocError>
    ensures { IfOk result (λ apart. IsTrue apart ↔ AllPairs (λ x y. x ≢ y) darts.now) }
{
    let mut seen = BTreeSet::new(alloc);
    for dart in darts {
        if !seen.insert(*dart)? {
            return Ok(false);
        }
    }
    Ok(true)
}

/// The pairs from which those of a face along a closed path grow: the end of each side with the start of the next.
pub(crate) fn face_seeds<K: Kind, const DIM: usize>(
    alloc: Global,
    links: &Links<K, DIM>,
    path: &[Dart],
) -> Result<Vec<Triple>, AllocError>
    requires { IsClosedPath K.kind (links_of links.now.rows) path.now }
    ensures { IfOk result (λ seeds. (x y t : ℕ) → Lists seeds.items x y t ↔ FaceSeed K.kind (links_of links.now.rows) path.now x y t) }
{
    let mut seeds = Vec::new(alloc);
    for place in 0..path.len() {
        let next = path[next_place(path.len(), place)];
        seeds.push(side_seed(links, path[place], next))?;
    }
    Ok(seeds)
}

/// The pair that joins the end of the side of `one` to the start of that of `next`.
fn side_seed<K: Kind, const DIM: usize>(links: &Links<K, DIM>, one: Dart, next: Dart) -> Triple
    requires { IsJoining K.kind (links_of links.now.rows) one next }
    ensures { result ≡ side_seed K.kind (links_of links.now.rows) one next }
{
    if is_generalized::<K>() {
        let end = links.link(one, 0).unwrap();
        Triple {
            x: end,
            y: next,
            t: 1,
        }
    } else {
        Triple {
            x: next,
            y: one,
            t: 1,
        }
    }
}
