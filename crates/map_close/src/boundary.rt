ghost use Rattle.std.specs.Prelude.{◌≡◌, ◌≢◌, ℕ, ◌≤◌, Contains};
ghost use Rattle.map_defs.specs.Rows.{links_of, IsLive};
ghost use Rattle.map_defs.specs.Closing.{IsAround};
ghost use Rattle.cell_edit.specs.Stars.{star_of};
ghost use Rattle.map_close.specs.Boundary.{IsRowOf};
ghost use Rattle.map_close.specs.NewLinks.{CanClose};

use crate::star_table::StarTable;
use link_rows::{Links, Row};
use map_kind::{Dart, Kind};

/// The number of the new dart of the next dart that is free at a link, after the open dart with this row around the boundary
/// along the link `before`: 0 where the way comes to a free link. It costs the steps of the way.
pub(crate) fn next_star<K: Kind, const DIM: usize>(
    links: &Links<K, DIM>,
    link: usize,
    before: usize,
    stars: &StarTable,
    row: &Row<DIM>,
) -> u32
    requires link { link ≤ DIM }
    requires before { before ≤ DIM }
    requires can { CanClose K.kind links.now.rows link stars.now }
    requires old { (x : ℕ) × Contains stars.now.keys x × IsRowOf links.now.rows x row.now }
    ensures { (x : ℕ) → Contains stars.now.keys x → IsRowOf links.now.rows x row.now
        → (y : ℕ) × IsAround K.kind link before (links_of links.now.rows) x y × (result ≡ star_of stars.now y) }
{
    // A map has links 0 to 8 at most.
    links.see_sound();
    let back = K::inverse(before);
    let mut at = row.entry(back);
    // On the rim of a single cell the way ends there.
    let star = stars.number(at);
    if star != 0 {
        return star;
    }
    // The way comes to no dart twice.
    for _turn in 0..links.made() + 2 {
        if at == 0 {
            return 0;
        }
        at = number_at(links, number_at(links, at, link), back);
        let star = stars.number(at);
        if star != 0 {
            return star;
        }
    }
    unreachable!()
}

/// The number at a link of the live dart of this number; 0 for 0.
fn number_at<K: Kind, const DIM: usize>(links: &Links<K, DIM>, number: u32, link: usize) -> u32
    requires link { link ≤ DIM }
    requires live { number ≢ 0 → IsLive links.now.rows number }
    ensures { result ≡ links_of links.now.rows link number }
{
    // 0 is no dart.
    links.see_sound();
    match Dart::new(number) {
        Some(dart) => links.live_row(dart).entry(link),
        None => 0,
    }
}
