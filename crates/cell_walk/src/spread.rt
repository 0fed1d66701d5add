//! Orbits of a whole map that are no paths and rings: their darts are marked, and listed until it was looked along all words
//! from each.
ghost use Rattle.std.specs.Prelude.{◌+◌, ◌≤◌, length, slice_index_or, All, Contains, IsTrue, OnOk, false};
ghost use Rattle.map_defs.specs.Rows.{IsLive, links_of};
ghost use Rattle.map_defs.specs.LinkWords.{IsWithin};
ghost use Rattle.map_defs.specs.Cells.{Leads};
ghost use Rattle.cell_walk.specs.Marks.{IsMarked, IsMarkedMore, IsOrbitFound, AreQueued};
ghost use Rattle.cell_walk.specs.Sweeps.{IsAmong, IsSweep};

use crate::marks::{put, put_if};
use crate::orbits::number_from;
use crate::sweep::Sweep;
use link_rows::Links;
use map_kind::{Dart, Kind, LinkWord};
use std::alloc::AllocError;

/// Marks the darts of the orbit of a live dart that was not marked, by looking where all words lead from each dart of it.
/// `queue` lists them meanwhile.
pub(crate) fn mark_spread<K: Kind, const DIM: usize>(
    links: &Links<K, DIM>,
    words: &[LinkWord],
    sweep: &Sweep,
    dart: Dart,
    marks: &mut [bool],
    queue: &mut Vec<Dart>,
) -> Result<(), AllocError>
    requires within { All (IsWithin DIM) words.now }
    requires sweep { IsSweep K.kind words.now sweep.now }
    requires live { IsLive links.now.rows dart }
    requires places { length links.now.rows ≤ length marks.old }
    requires nothing { IsMarked marks.old 0 }
    requires fresh { IsMarked marks.old dart → ⊥ }
    ensures { OnOk result (IsMarkedMore (IsOrbitFound (Leads (links_of links.now.rows) (Contains words.now)) dart) marks.old marks.new) }
{
    links.see_sound();
    queue.clear();
    put(dart.number(), marks, queue)?;
    let mut place = 0;
    while place < queue.len() {
        mark_next(links, words, sweep, queue[place], marks, queue)?;
        place += 1;
    }
    Ok(())
}

/// Marks and lists the darts to which the words lead from a live dart.
fn mark_next<K: Kind, const DIM: usize>(
    links: &Links<K, DIM>,
    words: &[LinkWord],
    sweep: &Sweep,
    dart: Dart,
    marks: &mut [bool],
    queue: &mut Vec<Dart>,
) -> Result<(), AllocError>
    requires within { All (IsWithin DIM) words.now }
    requires sweep { IsSweep K.kind words.now sweep.now }
    requires live { IsLive links.now.rows dart }
    requires places { length links.now.rows ≤ length marks.old }
    requires nothing { IsMarked marks.old 0 }
    ensures { OnOk result (AreQueued (links_of links.now.rows) (IsLive links.now.rows) (Contains words.now) dart
        marks.old queue.old.items marks.new queue.new.items) }
{
    match sweep {
        Sweep::Rows(wanted) => mark_row(links, wanted, dart, marks, queue),
        _ => mark_words(links, words, dart, marks, queue),
    }
}

/// Marks and lists the darts to which words of one link each lead from a live dart: all are read from its row.
fn mark_row<K: Kind, const DIM: usize>(
    links: &Links<K, DIM>,
    wanted: &[bool; 9],
    dart: Dart,
    marks: &mut [bool],
    queue: &mut Vec<Dart>,
) -> Result<(), AllocError>
    requires live { IsLive links.now.rows dart }
    requires places { length links.now.rows ≤ length marks.old }
    requires nothing { IsMarked marks.old 0 }
    ensures { OnOk result (AreQueued (links_of links.now.rows) (IsLive links.now.rows)
        (IsAmong (DIM + 1) (λ j. IsTrue (slice_index_or wanted.now j false))) dart
        marks.old queue.old.items marks.new queue.new.items) }
{
    links.see_sound();
    let row = links.live_row(dart);
    for link in 0..links.dimension() + 1 {
        put_if(wanted[link], row.entry(link), marks, queue)?;
    }
    Ok(())
}

/// Marks and lists the darts to which words lead from a live dart. Their first links are read from its row.
fn mark_words<K: Kind, const DIM: usize>(
    links: &Links<K, DIM>,
    words: &[LinkWord],
    dart: Dart,
    marks: &mut [bool],
    queue: &mut Vec<Dart>,
) -> Result<(), AllocError>
    requires within { All (IsWithin DIM) words.now }
    requires live { IsLive links.now.rows dart }
    requires places { length links.now.rows ≤ length marks.old }
    requires nothing { IsMarked marks.old 0 }
    ensures { OnOk result (AreQueued (links_of links.now.rows) (IsLive links.now.rows) (Contains words.now) dart
        marks.old queue.old.items marks.new queue.new.items) }
{
    links.see_sound();
    let row = links.live_row(dart);
    for word in words {
        put(number_from(links, row, *word), marks, queue)?;
    }
    Ok(())
}
