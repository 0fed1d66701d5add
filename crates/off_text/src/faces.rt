//! Faces, by the places of 0-cells.
ghost use Rattle.std.specs.Prelude.{ℕ, ◌≡◌, ◌+◌, ◌^◌, ◌<◌, ◌≤◌, ◌⊎◌, All, Contains, length, map, slice_index, IfOk};
ghost use Rattle.off_text.specs.Meanings.{lists_of};
ghost use Rattle.off_text.specs.MapViews.{IsPlaced};

use flat_lists::Lists;
use map_kind::Dart;
use std::alloc::{AllocError, Global};

/// For each dart up to `made`, at the place of its number, the place of a cell in which it lies. At other numbers it is 0.
pub(crate) fn place_cells(
    alloc: Global,
    made: u32,
    cells: &Lists<Dart>,
) -> Result<Vec<u32>, AllocError>
    requires few { length cells.now < 2 ^ 32 }
    requires made { All (λ cell. All (λ d. d ≤ made) cell) cells.now }
    ensures long { IfOk result (λ places. length places.items ≡ made + 1) }
    ensures placed { IfOk result (λ places. (x p : ℕ) → IsPlaced cells.now x p → IsPlaced cells.now x (slice_index places.items x)) }
{
    let mut places = vec![in alloc; 0; made as usize + 1]?;
    for place in 0..cells.len() {
        put_place(&mut places, cells.list(place), place as u32);
    }
    Ok(places)
}

/// Puts a place at the numbers of these darts.
fn put_place(places: &mut Vec<u32>, darts: &[Dart], place: u32)
    requires { All (λ d. d < length places.old.items) darts.now }
    ensures long { length places.new.items ≡ length places.old.items }
    ensures put { (x : ℕ) → Contains darts.now x → slice_index places.new.items x ≡ place }
    ensures kept { (x : ℕ) → Contains darts.now x ⊎ (slice_index places.new.items x ≡ slice_index places.old.items x) }
{
    for dart in darts {
        places[dart.number() as usize] = place;
    }
}

/// The faces along these ways round: for each the places of its darts.
pub(crate) fn faces_of(
    alloc: Global,
    rounds: &Lists<Dart>,
    places: &[u32],
) -> Result<Vec<Vec<u32>>, AllocError>
    requires { All (λ round. All (λ d. d < length places.now) round) rounds.now }
    ensures { IfOk result (λ faces. lists_of faces.items ≡ map (map (slice_index places.now)) rounds.now) }
{
    let mut faces = Vec::with_capacity(alloc, rounds.len())?;
    for face in 0..rounds.len() {
        faces.push(face_of(alloc, rounds.list(face), places)?)?;
    }
    Ok(faces)
}

/// The face along a way round.
fn face_of(alloc: Global, round: &[Dart], places: &[u32]) -> Result<Vec<u32>, AllocError>
    requires { All (λ d. d < length places.now) round.now }
    ensures { IfOk result (λ corners. corners.items ≡ map (slice_index places.now) round.now) }
{
    let mut corners = Vec::with_capacity(alloc, round.len())?;
    for dart in round {
        corners.push(places[dart.number() as usize])?;
    }
    Ok(corners)
}
