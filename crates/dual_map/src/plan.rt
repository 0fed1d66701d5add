//! The edit that makes the dual.
ghost use Rattle.std.specs.Prelude.{◌≡◌, ◌≢◌, ◌+◌, ◌*◌, ◌%◌, ◌<◌, ◌≤◌, ◌↔◌, ◌⊎◌, ◌++◌, [], length, All, IfOk, IfErr, OnOk, IsErrOf};
ghost use Rattle.map_defs.specs.Rows.{links_of, made, live_count, IsLive, IsSound};
ghost use Rattle.map_defs.specs.Laws.{Laws};
ghost use Rattle.map_defs.specs.Edits.{Fits, after_edit};
ghost use Rattle.map_defs.specs.Dual.{IsDualable, IsDual};
ghost use Rattle.link_rows.specs.DualLinks.{dual_link};
ghost use Rattle.dual_map.specs.Differences.{link_changes, dart_changes, map_changes};

use crate::boundary::dualable;
use crate::entries::dual_number_at;
use link_rows::{BornRows, Change, Edit, Links};
use map_kind::{Dart, Kind, Refusal, Refused};
use std::alloc::{AllocError, Global};

/// The edit that makes the dual of a map, which has the same darts. It lists just the links that differ in the dual, each
/// once.
///
/// `Boundary` comes exactly where the map has no dual, and is looked for before any memory is taken.
///
/// It costs a few steps for each link of the darts that were made, and takes the memory of the changes at once.
pub fn dual_plan<K: Kind, const DIM: usize>(
    alloc: Global,
    links: &Links<K, DIM>,
) -> Result<Edit, Refused>
    requires { Laws K.kind (links_of links.now.rows) }

    // It answers where there is a dual, with an edit that fits, makes the dual of the links, and keeps the laws.
    ensures dualable { OnOk result (IsDualable K.kind DIM (links_of links.now.rows) (IsLive links.now.rows)) }
    ensures births { IfOk result (λ edit. edit.births ≡ 0) }
    ensures deaths { IfOk result (λ edit. edit.deaths ≡ []) }
    ensures differ { IfOk result (λ edit. All (λ change. change.old ≢ change.new) edit.changes) }
    ensures fits { IfOk result (λ edit. Fits K.kind DIM links.now.rows edit) }
    ensures dual { IfOk result (λ edit. IsDual K.kind DIM (links_of links.now.rows)
        (links_of (after_edit DIM edit links.now.rows))) }
    ensures laws { IfOk result (λ edit. Laws K.kind (links_of (after_edit DIM edit links.now.rows))) }

    // The rows of the links are as their type keeps them.
    ensures begun { OnOk result (0 < length links.now.rows) }
    ensures sound { OnOk result (IsSound K.kind DIM links.now.rows) }

    // It is refused where there is no dual, or for want of memory.
    ensures boundary { IsErrOf result (Refused.Line Refusal.Boundary)
        ↔ (IsDualable K.kind DIM (links_of links.now.rows) (IsLive links.now.rows) → ⊥) }
    ensures refusals { IfErr result (λ refused. (refused ≡ Refused.NoMemory)
        ⊎ (refused ≡ Refused.Line Refusal.Boundary)) }
{
    if !dualable(links) {
        return Err(Refused::Line(Refusal::Boundary));
    }
    Ok(Edit {
        births: 0,
        deaths: Vec::new(alloc),
        changes: dual_changes(alloc, links)?,
        born: BornRows::none(alloc),
    })
}

/// The changes of the links that differ in the dual.
fn dual_changes<K: Kind, const DIM: usize>(
    alloc: Global,
    links: &Links<K, DIM>,
) -> Result<Vec<Change>, AllocError>
    ensures changes { IfOk result (λ changes. changes.items
        ≡ map_changes DIM (links_of links.now.rows) (dual_link K.kind DIM (links_of links.now.rows)) (made links.now.rows)) }
    ensures low { OnOk result (2 ≤ DIM) }
    ensures begun { OnOk result (0 < length links.now.rows) }
    ensures sound { OnOk result (IsSound K.kind DIM links.now.rows) }
{
    let mut changes = Vec::with_capacity(alloc, most_changes(links))?;
    for number in 0..links.made() {
        push_dart(links, Dart::new(number + 1).unwrap(), &mut changes)?;
    }
    Ok(changes)
}

/// How many links differ in the dual at most. One link of each dart stays: in a generalized map the middle one, where the
/// dimension is even, and in a combinatorial map the last one.
fn most_changes<K: Kind, const DIM: usize>(links: &Links<K, DIM>) -> usize
    ensures { result ≡ live_count links.now.rows * (DIM + DIM % 2) }
{
    let dim = links.dimension();
    links.live_count() as usize * (dim + dim % 2)
}

/// Appends the changes of the links of a dart that differ in the dual. A dart that is not live has none.
fn push_dart<K: Kind, const DIM: usize>(
    links: &Links<K, DIM>,
    dart: Dart,
    changes: &mut Vec<Change>,
) -> Result<(), AllocError>
    ensures { OnOk result (changes.new.items
        ≡ changes.old.items ++ dart_changes DIM (links_of links.now.rows) (dual_link K.kind DIM (links_of links.now.rows)) dart) }
{
    for link in 0..links.dimension() + 1 {
        push_link(links, dart, link, changes)?;
    }
    Ok(())
}

/// Appends the change of a link of a dart, where it differs in the dual.
fn push_link<K: Kind, const DIM: usize>(
    links: &Links<K, DIM>,
    dart: Dart,
    link: usize,
    changes: &mut Vec<Change>,
) -> Result<(), AllocError>
    requires { link ≤ DIM }
    ensures { OnOk result (changes.new.items
        ≡ changes.old.items ++ link_changes (links_of links.now.rows) (dual_link K.kind DIM (links_of links.now.rows)) dart link) }
{
    let old = links.number_at(dart, link);
    let new = dual_number_at(links, dart, link);
    if old == new {
        return Ok(());
    }
    links.see_sound();
    changes.push(Change::new(dart, link, old, new))?;
    Ok(())
}
