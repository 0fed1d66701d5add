ghost use Rattle.std.specs.Prelude.{◌≡◌, ◌+◌, ◌≤◌, Contains, IfOk, OnOk};
ghost use Rattle.map_defs.specs.Kind.{inverse};
ghost use Rattle.map_defs.specs.Rows.{links_of};
ghost use Rattle.map_defs.specs.Laws.{Laws};
ghost use Rattle.cell_edit.specs.Stars.{star_of};
ghost use Rattle.map_close.specs.Planning.{PlansClosing};
ghost use Rattle.map_close.specs.Boundary.{IsRowOf};
ghost use Rattle.map_close.specs.NewLinks.{IsNewLink, IsNewRow, IsClosedBelow, CanClose};

use crate::boundary::next_star;
use crate::star_table::StarTable;
use link_rows::{BornRows, Edit, Links, Row};
use map_kind::{Dart, Kind};
use std::alloc::{AllocError, Global};

/// The edit that closes a map at a link that is its own inverse.
///
/// It costs two steps for each dart that was made, and the walks around the boundary and its darts, for each link of the map.
pub(crate) fn closing_edit<K: Kind, const DIM: usize>(
    alloc: Global,
    links: &Links<K, DIM>,
    link: usize,
) -> Result<Edit, AllocError>
    requires link { link ≤ DIM }
    requires own { inverse K.kind link ≡ link }
    requires laws { Laws K.kind (links_of links.now.rows) }
    ensures { IfOk result (PlansClosing K.kind DIM links.now.rows link) }
{
    let stars = StarTable::of_open_darts(alloc, links, link)?;
    let births = stars.births();
    let width = links.dimension() + 1;
    let mut born = BornRows::with_room(alloc, stars.first(), width, births as usize)?;
    // At this link each new dart leads to an open one, which leads back.
    born.lead_back(link);
    for number in 1..links.made() + 1 {
        close_dart(links, link, &stars, Dart::new(number).unwrap(), &mut born)?;
    }
    Ok(Edit {
        births,
        deaths: Vec::new(alloc),
        changes: Vec::new(alloc),
        born,
    })
}

/// Appends the row of the new dart of a dart; nothing where the dart gets none.
fn close_dart<K: Kind, const DIM: usize>(
    links: &Links<K, DIM>,
    link: usize,
    stars: &StarTable,
    dart: Dart,
    born: &mut BornRows,
) -> Result<(), AllocError>
    requires link { link ≤ DIM }
    requires can { CanClose K.kind links.now.rows link stars.now }
    requires dart { dart ≤ stars.now.made }
    requires before { IsClosedBelow K.kind DIM links.now.rows link stars.now dart born.old }
    ensures { OnOk result (IsClosedBelow K.kind DIM links.now.rows link stars.now (dart + 1) born.new) }
{
    // A map has links 0 to 8 at most.
    links.see_sound();
    if stars.number(dart.number()) == 0 {
        return Ok(());
    }
    let row = new_row(links, link, stars, dart);
    born.push(&row)?;
    Ok(())
}

/// The row of the new dart of an open dart.
fn new_row<K: Kind, const DIM: usize>(
    links: &Links<K, DIM>,
    link: usize,
    stars: &StarTable,
    dart: Dart,
) -> Row<DIM>
    requires link { link ≤ DIM }
    requires can { CanClose K.kind links.now.rows link stars.now }
    requires key { Contains stars.now.keys dart }
    ensures { IsNewRow K.kind DIM link (links_of links.now.rows) (star_of stars.now) dart result }
{
    // A map has links 0 to 8 at most.
    links.see_sound();
    let old = links.live_row(dart);
    let mut row = Row::zeros();
    for at in 0..links.dimension() + 1 {
        row.set(at, new_link(links, link, stars, dart, old, at));
    }
    row
}

/// The number at a link of the new dart of an open dart, which has this row. The link at which the map is closed leads back,
/// the next one is free, distant ones run as they run at the open dart, and others lead around the boundary.
fn new_link<K: Kind, const DIM: usize>(
    links: &Links<K, DIM>,
    link: usize,
    stars: &StarTable,
    dart: Dart,
    row: &Row<DIM>,
    at: usize,
) -> u32
    requires link { link ≤ DIM }
    requires at { at ≤ DIM }
    requires can { CanClose K.kind links.now.rows link stars.now }
    requires key { Contains stars.now.keys dart }
    requires row { IsRowOf links.now.rows dart row.now }
    ensures { IsNewLink K.kind link (links_of links.now.rows) (star_of stars.now) dart at result }
{
    // A map has links 0 to 8 at most.
    links.see_sound();
    if at == link {
        return dart.number();
    }
    if at == link + 1 {
        return 0;
    }
    if K::distant(link, at) {
        return stars.number(row.entry(K::inverse(at)));
    }
    next_star(links, link, at, stars, row)
}
