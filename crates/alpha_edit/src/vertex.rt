ghost use Rattle.std.specs.Prelude.{◌≡◌, ◌≢◌, ℕ, ◌≤◌, ◌<◌, ◌↔◌, ◌⊎◌, Contains, IfOk};
ghost use Rattle.std.specs.List.Sorted.{IsStrictlyIncreasing};
ghost use Rattle.map_defs.specs.Kind.{alpha};
ghost use Rattle.map_defs.specs.Rows.{links_of, IsLive};
ghost use Rattle.map_defs.specs.Laws.{Laws};
ghost use Rattle.map_defs.specs.Cells.{InCell};
ghost use Rattle.cell_edit.specs.Planning.{PlansVertex};

use cell_edit::insertion_edit;
use cell_walk::cell;
use link_rows::{Edit, Links};
use map_kind::{Alpha, Dart};
use std::alloc::{AllocError, Global};

/// The edit that inserts a vertex on the edge of a dart. Each dart of the edge gets a new dart, numbered on from those that
/// were made in the order of the edge's darts; link 0 joins the two, and link 1 joins the new darts around the vertex.
///
/// It is always possible: only memory can lack. It costs the darts of the edge, for each link of the map, times a
/// logarithm. On a surface, where an edge has four darts at most, no walk is needed.
pub fn vertex_plan<const DIM: usize>(
    alloc: Global,
    links: &Links<Alpha, DIM>,
    dart: Dart,
) -> Result<Edit, AllocError>
    requires dart { IsLive links.now.rows dart }
    requires laws { Laws alpha (links_of links.now.rows) }
    ensures { IfOk result (PlansVertex alpha DIM links.now.rows dart) }
{
    // A map has links 0 to 2 at least.
    links.see_sound();
    insertion_edit(alloc, links, 0, edge_darts(alloc, links, dart)?, &[])
}

/// The darts of the edge of a dart, ascending. On a surface these are four at most, and are read from two rows, without a walk.
fn edge_darts<const DIM: usize>(
    alloc: Global,
    links: &Links<Alpha, DIM>,
    dart: Dart,
) -> Result<Vec<Dart>, AllocError>
    requires dart { IsLive links.now.rows dart }
    requires laws { Laws alpha (links_of links.now.rows) }
    ensures members { IfOk result (λ darts. (x : ℕ) → Contains darts.items x ↔ InCell alpha (links_of links.now.rows) 1 dart x) }
    ensures ascending { IfOk result (λ darts. IsStrictlyIncreasing darts.items) }
{
    // Links name live darts.
    links.see_sound();
    if links.dimension() != 2 {
        return cell(alloc, links, 1, dart);
    }
    let row = links.live_row(dart);
    match (Dart::new(row.entry(0)), Dart::new(row.entry(2))) {
        (Some(end), Some(across)) => {
            if across == end {
                return two_darts(alloc, dart, end);
            }
            let Some(far) = Dart::new(links.live_row(end).entry(2)) else {
                unreachable!();
            };
            four_darts(alloc, ordered(dart, end), ordered(across, far))
        }
        (Some(end), None) => two_darts(alloc, dart, end),
        (None, Some(across)) => two_darts(alloc, dart, across),
        (None, None) => Vec::from_slice(alloc, &[dart]),
    }
}

/// Two darts that are not the same, ascending.
fn two_darts(alloc: Global, one: Dart, other: Dart) -> Result<Vec<Dart>, AllocError>
    requires { one ≢ other }
    ensures members { IfOk result (λ darts. (x : ℕ) → Contains darts.items x ↔ ((x ≡ one) ⊎ (x ≡ other))) }
    ensures ascending { IfOk result (λ darts. IsStrictlyIncreasing darts.items) }
{
    let (low, high) = ordered(one, other);
    Vec::from_slice(alloc, &[low, high])
}

/// The darts of two ascending pairs that have no dart in common, ascending.
fn four_darts(
    alloc: Global,
    one: (Dart, Dart),
    other: (Dart, Dart),
) -> Result<Vec<Dart>, AllocError>
    requires one { one.0 < one.1 }
    requires other { other.0 < other.1 }
    requires apart { (one.0 ≢ other.0) × (one.0 ≢ other.1) × (one.1 ≢ other.0) × (one.1 ≢ other.1) }
    ensures members { IfOk result (λ darts. (x : ℕ) → Contains darts.items x
        ↔ ((x ≡ one.0) ⊎ (x ≡ one.1) ⊎ (x ≡ other.0) ⊎ (x ≡ other.1))) }
    ensures ascending { IfOk result (λ darts. IsStrictlyIncreasing darts.items) }
{
    let lower = ordered(one.0, other.0);
    let upper = ordered(one.1, other.1);
    let middle = ordered(lower.1, upper.0);
    Vec::from_slice(alloc, &[lower.0, middle.0, middle.1, upper.1])
}

/// Two darts, the lesser one first.
fn ordered(one: Dart, other: Dart) -> (Dart, Dart)
    ensures which { ((result.0 ≡ one) × (result.1 ≡ other)) ⊎ ((result.0 ≡ other) × (result.1 ≡ one)) }
    ensures order { result.0 ≤ result.1 }
{
    if other < one {
        return (other, one);
    }
    (one, other)
}
