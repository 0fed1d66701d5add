//! How walks over the whole map mark the darts of orbits: told once for all orbits along the same words.
ghost use Rattle.std.specs.Prelude.{false, slice_index_or, All, IsTrue};
ghost use Rattle.map_defs.specs.LinkWords.{IsWithin};
ghost use Rattle.cell_walk.specs.Ways.{IsLink, AreAlong};
ghost use Rattle.cell_walk.specs.Sweeps.{AreWanted, IsSweep};

use crate::ways::{Course, Ways, course_along, is_along_links};
use map_kind::{Kind, LinkWord};

/// How walks over the whole map mark orbits along some words.
#[derive(Drop)]
pub(crate) enum Sweep {
    /// Orbits are paths and rings: two links take turns on the way forth, and two on the way back.
    Turns((usize, usize), (usize, usize)),
    /// Orbits are paths and rings: one word leads on, and another one back, again and again.
    Again(LinkWord, LinkWord),
    /// Each word is one link: those links that are set are read from the row of each dart.
    Rows([bool; 9]),
    /// All words are looked along from each dart.
    Words,
}

/// How walks over the whole map mark orbits along some words.
pub(crate) fn sweep_along<K: Kind>(words: &[LinkWord]) -> Sweep
    requires { All (IsWithin 8) words.now }
    ensures { IsSweep K.kind words.now result }
{
    match course_along::<K>(words) {
        Course::Round(ways) => round_sweep::<K>(words, &ways),
        Course::Links => Sweep::Rows(links_among(words)),
        Course::Words => Sweep::Words,
    }
}

/// How orbits are marked that are paths and rings along these ways.
fn round_sweep<K: Kind>(words: &[LinkWord], ways: &Ways) -> Sweep
    requires { AreAlong K.kind words.now ways.now }
    ensures { IsSweep K.kind words.now result }
{
    let Ways { forth, back } = *ways;
    if is_along_links(&forth) && is_along_links(&back) {
        return Sweep::Turns(
            (forth.next.first, forth.after.first),
            (back.next.first, back.after.first),
        );
    }
    if forth.next == forth.after && back.next == back.after {
        return Sweep::Again(forth.next, back.next);
    }
    Sweep::Words
}

/// Which links these words of one link each are.
fn links_among(words: &[LinkWord]) -> [bool; 9]
    requires within { All (IsWithin 8) words.now }
    requires single { All IsLink words.now }
    ensures { AreWanted words.now (λ j. IsTrue (slice_index_or result j false)) }
{
    let mut among = [false; 9];
    for word in words {
        among[word.first] = true;
    }
    among
}
