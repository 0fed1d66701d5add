//! The points of 0-cells.
ghost use Rattle.std.specs.Prelude.{ℕ, ◌≡◌, Contains, Some, None, map, IfOk, IfErr};
ghost use Rattle.std.specs.List.{AllZip};
ghost use Rattle.std.specs.List.Sorted.{IsStrictlyIncreasing};
ghost use Rattle.map_defs.specs.Refusal as machine;
ghost use Rattle.off_text.specs.MapViews.{placed, IfLine};

use map_kind::{Dart, Place, Refusal, Refused, Value};
use std::alloc::Global;

/// The points of 0-cells, each told by its least dart. It is refused as `NoPoint` where one of these darts has no place.
pub(crate) fn points_of(
    alloc: Global,
    vertices: &[Dart],
    places: &[Place],
) -> Result<Vec<Value>, Refused>
    requires { IsStrictlyIncreasing (map (λ place. place.dart) places.now) }
    ensures points { IfOk result (λ points. AllZip (λ d point. placed places.now d ≡ Some point) vertices.now points.items) }
    ensures refused { IfErr result (λ refused. IfLine refused (λ why. (why ≡ machine.NoPoint)
        × ((d : ℕ) × Contains vertices.now d × (placed places.now d ≡ None)))) }
{
    let mut points = Vec::with_capacity(alloc, vertices.len())?;
    for vertex in vertices {
        points.push(point_at(places, *vertex)?)?;
    }
    Ok(points)
}

/// The point at a dart. It is refused as `NoPoint` where the dart has no place.
fn point_at(places: &[Place], dart: Dart) -> Result<Value, Refusal>
    requires { IsStrictlyIncreasing (map (λ place. place.dart) places.now) }
    ensures point { IfOk result (λ point. placed places.now dart ≡ Some point) }
    ensures none { IfErr result (λ refusal. (refusal ≡ Refusal.NoPoint) × (placed places.now dart ≡ None)) }
{
    match places.binary_search_by_key(&dart, |place| place.dart) {
        Ok(place) => {
            let found = &places[place];
            Ok(found.value)
        }
        Err(_) => Err(Refusal::NoPoint),
    }
}
