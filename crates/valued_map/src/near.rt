//! The darts that changes of links may have moved to other cells.
ghost use Rattle.std.specs.Prelude.{◌≡◌, ◌≢◌, ◌≤◌, Some, Contains, OnOk};
ghost use Rattle.map_defs.specs.LinkWords.{LinkWord as MapWord, IsWithin};
ghost use Rattle.map_defs.specs.Rows.{IsSound, links_of};
ghost use Rattle.valued_map.specs.Changing.{AreAdded};
ghost use Rattle.valued_map.specs.Undoing.{IsNearAlong, IsNearChange};

use crate::touched::add_live;
use link_rows::{Change, Links};
use map_kind::{Dart, Kind, LinkWord};
use std::alloc::AllocError;

/// Adds the live darts that a change of a link may have rerouted along some words.
pub(crate) fn add_near_change<K: Kind, const DIM: usize>(
    links: &Links<K, DIM>,
    words: &[LinkWord],
    change: Change,
    darts: &mut Vec<Dart>,
) -> Result<(), AllocError>
    requires low { 2 ≤ DIM }
    requires sound { IsSound K.kind DIM links.now.rows }
    requires words { (w : MapWord) → Contains words.now w → IsWithin DIM w }
    ensures { OnOk result (AreAdded links.now.rows (IsNearChange (Contains words.now) links.now.rows change)
        darts.old.items darts.new.items) }
{
    for word in words {
        add_near_along(links, *word, change, darts)?;
    }
    Ok(())
}

/// Adds the live darts that a change of a link may have rerouted along a word.
fn add_near_along<K: Kind, const DIM: usize>(
    links: &Links<K, DIM>,
    word: LinkWord,
    change: Change,
    darts: &mut Vec<Dart>,
) -> Result<(), AllocError>
    requires low { 2 ≤ DIM }
    requires sound { IsSound K.kind DIM links.now.rows }
    requires word { IsWithin DIM word }
    ensures { OnOk result (AreAdded links.now.rows (IsNearAlong links.now.rows word change) darts.old.items darts.new.items) }
{
    add_changed(links, word, change, darts)?;
    add_behind(links, word, change, darts)
}

/// Adds the changed dart, where a word follows the changed link first.
fn add_changed<K: Kind, const DIM: usize>(
    links: &Links<K, DIM>,
    word: LinkWord,
    change: Change,
    darts: &mut Vec<Dart>,
) -> Result<(), AllocError>
    requires { IsSound K.kind DIM links.now.rows }
    ensures { OnOk result (AreAdded links.now.rows (λ x. (word.first ≡ change.link) × (x ≡ change.dart))
        darts.old.items darts.new.items) }
{
    if word.first != change.link {
        return Ok(());
    }
    add_live(links, change.dart.number(), darts)
}

/// Adds the dart from which a word comes to the changed dart, where it follows the changed link then.
fn add_behind<K: Kind, const DIM: usize>(
    links: &Links<K, DIM>,
    word: LinkWord,
    change: Change,
    darts: &mut Vec<Dart>,
) -> Result<(), AllocError>
    requires low { 2 ≤ DIM }
    requires sound { IsSound K.kind DIM links.now.rows }
    requires word { IsWithin DIM word }
    ensures { OnOk result (AreAdded links.now.rows
        (λ x. (word.second ≡ Some change.link) × (links_of links.now.rows word.first x ≡ change.dart) × (change.dart ≢ 0))
        darts.old.items darts.new.items) }
{
    if word.second != Some(change.link) {
        return Ok(());
    }
    let Some(before) = links.link(change.dart, K::inverse(word.first)) else {
        return Ok(());
    };
    darts.push(before)?;
    Ok(())
}
