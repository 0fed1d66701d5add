//! The laws of maps, looked at dart by dart.
ghost use Rattle.std.specs.Prelude.{◌≡◌, ◌≢◌, ◌≤◌, ◌↔◌, All, IsTrue, IfSome, IfNone};
ghost use Rattle.machine_defs.specs.ListingFaults.{links_in, KeepsLaws, IsLawful, IsFirstWithout};
ghost use Rattle.map_defs.specs.Kind.{IsDistant};
ghost use Rattle.row_laws.specs.Rows.{IsRow, LeadsBack, IsClosedAt, AreClosed};

use crate::ListRow;
use crate::table::RowTable;
use map_kind::Kind;

/// The place of the first of the rows at whose dart a law fails, if there is one.
pub(crate) fn first_unlawful<K: Kind>(
    table: &RowTable,
    dim: usize,
    rows: &[ListRow],
) -> Option<usize>
    requires same { table.now ≡ rows.now }
    requires each { All (IsRow dim) rows.now }
    requires dim { dim ≤ 4 }
    ensures fails { IfSome result (IsFirstWithout (λ row. IsLawful K.kind rows.now row.dart) rows.now) }
    ensures keep { IfNone result (All (λ row. IsLawful K.kind rows.now row.dart) rows.now) }
{
    for (place, row) in rows.iter().enumerate() {
        if !keeps_laws::<K>(table, dim, row.dart.number()) {
            return Some(place);
        }
    }
    None
}

/// Whether all links of a dart keep the laws.
fn keeps_laws<K: Kind>(table: &RowTable, dim: usize, dart: u32) -> bool
    requires each { All (IsRow dim) table.now }
    requires dim { dim ≤ 4 }
    ensures { IsTrue result ↔ IsLawful K.kind table.now dart }
{
    for link in 0..dim + 1 {
        if !is_lawful::<K>(table, dim, link, dart) {
            return false;
        }
    }
    true
}

/// Whether a link of a dart is free or keeps the laws.
fn is_lawful<K: Kind>(table: &RowTable, dim: usize, link: usize, dart: u32) -> bool
    requires each { All (IsRow dim) table.now }
    requires dim { dim ≤ 4 }
    requires link { link ≤ dim }
    ensures { IsTrue result ↔ (links_in table.now link dart ≢ 0 → KeepsLaws K.kind table.now link dart (links_in table.now link dart)) }
{
    let to = table.link(link, dart);
    if to == 0 {
        return true;
    }
    if !leads_back::<K>(table, link, dart, to) {
        return false;
    }
    are_closed::<K>(table, dim, link, dart, to)
}

/// Whether a link leads to a live dart, and its inverse back, and to another dart where it is its own inverse.
fn leads_back<K: Kind>(table: &RowTable, link: usize, dart: u32, to: u32) -> bool
    ensures { IsTrue result ↔ LeadsBack K.kind table.now link dart to }
{
    let inverse = K::inverse(link);
    if !table.has_row(to) || table.link(inverse, to) != dart {
        return false;
    }
    inverse != link || to != dart
}

/// Whether the squares of a link and the higher distant ones are closed at a dart.
fn are_closed<K: Kind>(table: &RowTable, dim: usize, link: usize, dart: u32, to: u32) -> bool
    requires each { All (IsRow dim) table.now }
    requires dim { dim ≤ 4 }
    requires link { link ≤ dim }
    ensures { IsTrue result ↔ AreClosed K.kind table.now link dart to }
{
    for other in link + 1..dim + 1 {
        if !is_closed_if_distant::<K>(table, link, other, dart, to) {
            return false;
        }
    }
    true
}

/// Whether two links are not distant, or their square is closed at a dart.
fn is_closed_if_distant<K: Kind>(
    table: &RowTable,
    link: usize,
    other: usize,
    dart: u32,
    to: u32,
) -> bool
    ensures { IsTrue result ↔ (IsDistant K.kind link other → IsClosedAt K.kind table.now link dart to other) }
{
    if !K::distant(link, other) {
        return true;
    }
    is_closed::<K>(table, link, other, dart, to)
}

/// Whether a dart and the one at a link of it are alike free at another link, and the square closes where they are not.
fn is_closed<K: Kind>(table: &RowTable, link: usize, other: usize, dart: u32, to: u32) -> bool
    ensures { IsTrue result ↔ IsClosedAt K.kind table.now link dart to other }
{
    let across = table.link(other, dart);
    let beyond = table.link(other, to);
    if across == 0 {
        return beyond == 0;
    }
    beyond != 0 && table.link(K::inverse(link), across) == beyond
}
