//! Corners of faces, each with its copies on the other sides of the face.
ghost use Rattle.std.specs.Prelude.{◌≡◌, ℕ, ◌≤◌, ◌↔◌, ◌⊎◌, Contains, IfOk, IsTrue, map};
ghost use Rattle.std.specs.List.Sorted.{IsStrictlyIncreasing};
ghost use Rattle.map_defs.specs.Kind.{alpha};
ghost use Rattle.map_defs.specs.Rows.{links_of, IsLive};
ghost use Rattle.map_defs.specs.Laws.{Laws};
ghost use Rattle.map_defs.specs.LinkWords.{two_links};
ghost use Rattle.map_defs.specs.Insertion.{InAlphaCorner, InBetaCorner};

use crate::along::{carried_darts, carrying_links, leads};
use cell_walk::{orbit, reaches};
use link_rows::Links;
use map_kind::{Alpha, Beta, Dart, LinkWord};
use std::alloc::{AllocError, Global};

/// The darts of a corner of a generalized map, with its copies on the other sides of the face, ascending. On a face of one
/// side alone these are the dart and the one at its link 1, and no walk is needed.
///
/// It costs these darts, for each link of the map, times a logarithm.
pub fn alpha_corner<const DIM: usize>(
    alloc: Global,
    links: &Links<Alpha, DIM>,
    dart: Dart,
) -> Result<Vec<Dart>, AllocError>
    requires { Laws alpha (links_of links.now.rows) }
    ensures members { IfOk result (λ darts. (x : ℕ) → Contains darts.items x ↔ InAlphaCorner (links_of links.now.rows) dart x) }
    ensures ascending { IfOk result (λ darts. IsStrictlyIncreasing darts.items) }
{
    // Links above the dimension are free.
    links.see_sound();
    if !is_on_one_side_alone(links, dart) {
        return carried_darts(alloc, links, 1, &[dart]);
    }
    match links.link(dart, 1) {
        Some(other) => both(alloc, dart, other),
        None => Vec::from_slice(alloc, &[dart]),
    }
}

/// Whether two darts lie in one corner of a generalized map. On a face of one side alone no walk is needed.
///
/// It costs the darts of the corner that are not farther from `one` than `other`, for each link of the map, times a logarithm.
pub fn are_in_one_alpha_corner<const DIM: usize>(
    alloc: Global,
    links: &Links<Alpha, DIM>,
    one: Dart,
    other: Dart,
) -> Result<bool, AllocError>
    requires other { IsLive links.now.rows other }
    requires laws { Laws alpha (links_of links.now.rows) }
    ensures { IfOk result (λ one_corner. IsTrue one_corner ↔ InAlphaCorner (links_of links.now.rows) one other) }
{
    // Links above the dimension are free.
    links.see_sound();
    if is_on_one_side_alone(links, one) {
        return Ok(other == one || links.number_at(one, 1) == other.number());
    }
    let carrying = carrying_links::<Alpha>(alloc, links.dimension(), 1)?;
    leads(alloc, links, &carrying, one, other)
}

/// Whether all links of a dart from link 3 upwards are free.
fn is_on_one_side_alone<const DIM: usize>(links: &Links<Alpha, DIM>, dart: Dart) -> bool
    ensures { IsTrue result → (j : ℕ) → 3 ≤ j → j ≤ DIM → links_of links.now.rows j dart ≡ 0 }
{
    for link in 3..links.dimension() + 1 {
        if links.number_at(dart, link) != 0 {
            return false;
        }
    }
    true
}

/// Two darts, ascending; one, where they are the same.
fn both(alloc: Global, one: Dart, other: Dart) -> Result<Vec<Dart>, AllocError>
    ensures members { IfOk result (λ darts. (x : ℕ) → Contains darts.items x ↔ ((x ≡ one) ⊎ (x ≡ other))) }
    ensures ascending { IfOk result (λ darts. IsStrictlyIncreasing darts.items) }
{
    if one < other {
        return Vec::from_slice(alloc, &[one, other]);
    }
    if other < one {
        return Vec::from_slice(alloc, &[other, one]);
    }
    Vec::from_slice(alloc, &[one])
}

/// The darts of a corner of a combinatorial map, with its copies on the other sides of the face, ascending. On a surface,
/// where faces have one side alone, each corner is one dart, and no walk is needed.
///
/// It costs these darts, for each link of the map, times a logarithm.
pub fn beta_corner<const DIM: usize>(
    alloc: Global,
    links: &Links<Beta, DIM>,
    dart: Dart,
) -> Result<Vec<Dart>, AllocError>
    ensures members { IfOk result (λ darts. (x : ℕ) → Contains darts.items x ↔ InBetaCorner (links_of links.now.rows) dart x) }
    ensures ascending { IfOk result (λ darts. IsStrictlyIncreasing darts.items) }
{
    let copying = copying_links(alloc, links.dimension())?;
    if copying.is_empty() {
        return Vec::from_slice(alloc, &[dart]);
    }
    let words = corner_words(alloc, &copying)?;
    orbit(alloc, links, &words, dart)
}

/// Whether two darts lie in one corner of a combinatorial map. On a surface, where faces have one side alone, each corner is one
/// dart, and no walk is needed.
///
/// It costs the darts of the corner that are not farther from `one` than `other`, for each link of the map, times a logarithm.
pub fn are_in_one_beta_corner<const DIM: usize>(
    alloc: Global,
    links: &Links<Beta, DIM>,
    one: Dart,
    other: Dart,
) -> Result<bool, AllocError>
    ensures { IfOk result (λ one_corner. IsTrue one_corner ↔ InBetaCorner (links_of links.now.rows) one other) }
{
    let copying = copying_links(alloc, links.dimension())?;
    if copying.is_empty() {
        return Ok(one == other);
    }
    let words = corner_words(alloc, &copying)?;
    reaches(alloc, links, &words, one, other)
}

/// The links up to `dim` at which the copies of a corner lie on the other sides of the face: those from 3 upwards.
pub fn copying_links(alloc: Global, dim: usize) -> Result<Vec<usize>, AllocError>
    requires low { 2 ≤ dim }
    requires high { dim ≤ 8 }
    ensures { IfOk result (λ copying. (j : ℕ) → Contains copying.items j ↔ ((j ≤ dim) × (3 ≤ j))) }
{
    let mut copying = Vec::new(alloc);
    for link in 3..dim + 1 {
        copying.push(link)?;
    }
    Ok(copying)
}

/// The words "0, then j" for these links j.
fn corner_words(alloc: Global, copying: &[usize]) -> Result<Vec<LinkWord>, AllocError>
    ensures { IfOk result (λ words. words.items ≡ map (two_links 0) copying.now) }
{
    copying
        .iter()
        .map(|link| LinkWord::two(0, *link))
        .collect(alloc)
}
