ghost use Rattle.std.specs.Prelude.{◌≡◌, ℕ, ◌*◌, ◌≤◌, ◌<◌, Some, length, map, All, slice_get, IfOk, IfErr};
ghost use Rattle.map_defs.specs.Polygon.{per_side};
ghost use Rattle.mesh_build.specs.Sides.{views};
ghost use Rattle.mesh_laws.specs.Sides.{kind_of};
ghost use Rattle.mesh_laws.specs.SideLinks.{point_of};

use crate::MeshFault;
use crate::side::Side;
use map_kind::{Dart, Place, Value};
use std::alloc::Global;

/// These darts, each with the point at which it lies.
pub fn places_of(
    alloc: Global,
    oriented: bool,
    points: &[Value],
    sides: &[Side],
    darts: &[Dart],
) -> Result<Vec<Place>, MeshFault>
    requires darts { All (λ d. (1 ≤ d) × (d ≤ per_side (kind_of oriented) * length sides.now)) darts.now }
    requires points { (d : ℕ) → 1 ≤ d → d ≤ per_side (kind_of oriented) * length sides.now
        → point_of (kind_of oriented) (views sides.now) d < length points.now }
    ensures darts { IfOk result (λ places. map (λ place. place.dart) places.items ≡ darts.now) }
    ensures values { IfOk result (λ places. All (λ p. slice_get points.now (point_of (kind_of oriented) (views sides.now) p.dart) ≡ Some p.value) places.items) }
    ensures err { IfErr result (λ fault. fault ≡ MeshFault.NoMemory) }
{
    let mut places = Vec::with_capacity(alloc, darts.len())?;
    for dart in darts {
        let point = point_of(oriented, sides, *dart);
        places.push(Place {
            dart: *dart,
            value: points[point as usize],
        })?;
    }
    Ok(places)
}

/// The point at which a dart lies.
fn point_of(oriented: bool, sides: &[Side], dart: Dart) -> u32
    requires { dart ≤ per_side (kind_of oriented) * length sides.now }
    ensures { result ≡ point_of (kind_of oriented) (views sides.now) dart }
{
    let number = dart.number();
    if oriented {
        sides[(number - 1) as usize].from
    } else if number % 2 == 1 {
        sides[((number - 1) / 2) as usize].from
    } else {
        sides[((number - 1) / 2) as usize].to
    }
}
