//! The ways round 2-cells.
ghost use Rattle.std.specs.Prelude.{ℕ, List, ◌≡◌, ◌≤◌, ◌<◌, All, Contains, length, IfOk, IfErr, OnOk};
ghost use Rattle.std.specs.List.{AllZip};
ghost use Rattle.map_defs.specs.Rows.{links_of};
ghost use Rattle.map_defs.specs.Refusal as machine;
ghost use Rattle.map_defs.specs.OffOfMap.{ListsCells, IsRound, IsOpen, HasOpenFace, next_round, round_word};
ghost use Rattle.off_text.specs.MapViews.{IfLine};

use cell_walk::{cells, follow};
use flat_lists::Lists;
use link_rows::Links;
use map_kind::{Dart, Kind, LinkWord, Refusal, Refused, is_generalized};
use std::alloc::Global;

/// The darts on the way round each 2-cell, from its least dart on, by ascending least dart.
pub(crate) fn rounds_of<K: Kind, const DIM: usize>(
    alloc: Global,
    links: &Links<K, DIM>,
) -> Result<Lists<Dart>, Refused>
    ensures rounds { IfOk result (λ rounds. (cells : List ℕ) × ListsCells K.kind links.now.rows 2 cells
        × AllZip (IsRound K.kind (links_of links.now.rows)) cells rounds) }
    ensures refused { IfErr result (λ refused. IfLine refused (λ why. (why ≡ machine.NotClosed) × HasOpenFace K.kind links.now.rows)) }
{
    links.see_sound();
    let cells = cells(alloc, links, 2)?;
    let mut rounds = Lists::new(alloc);
    let mut round = Vec::new(alloc);
    for first in &cells {
        walk_round(links, *first, &mut round)?;
        rounds.push(&round)?;
    }
    Ok(rounds)
}

/// Lists the darts on the way round a 2-cell, from the first on until it is there again, in place of those that were there.
/// It is refused as `NotClosed` where the way meets a free link.
fn walk_round<K: Kind, const DIM: usize>(
    links: &Links<K, DIM>,
    first: Dart,
    round: &mut Vec<Dart>,
) -> Result<(), Refused>
    ensures round { OnOk result (IsRound K.kind (links_of links.now.rows) first round.new.items) }
    ensures refused { IfErr result (λ refused. IfLine refused (λ why. (why ≡ machine.NotClosed) × IsOpen K.kind (links_of links.now.rows) first)) }
{
    round.clear();
    round.push(first)?;
    let mut dart = next_round(links, first)?;
    while dart != first {
        round.push(dart)?;
        dart = next_round(links, dart)?;
    }
    Ok(())
}

/// The dart behind a dart on the way round its 2-cell. It is refused as `NotClosed` where a link on the way is free.
fn next_round<K: Kind, const DIM: usize>(links: &Links<K, DIM>, dart: Dart) -> Result<Dart, Refusal>
    ensures next { IfOk result (λ next. next ≡ next_round K.kind (links_of links.now.rows) dart) }
    ensures free { IfErr result (λ refusal. (refusal ≡ Refusal.NotClosed) × (next_round K.kind (links_of links.now.rows) dart ≡ 0)) }
{
    links.see_sound();
    follow(links, round_word::<K>(), dart).ok_or(Refusal::NotClosed)
}

/// The word that leads on round a 2-cell, from a side to the next.
fn round_word<K: Kind>() -> LinkWord
    ensures { result ≡ round_word K.kind }
{
    if is_generalized::<K>() {
        LinkWord::two(0, 1)
    } else {
        LinkWord::one(1)
    }
}

/// Refuses a way round that has fewer than three darts, as `ThinFace`.
pub(crate) fn refuse_thin(rounds: &Lists<Dart>) -> Result<(), Refusal>
    ensures thick { OnOk result (All (λ round. 3 ≤ length round) rounds.now) }
    ensures thin { IfErr result (λ refusal. (refusal ≡ Refusal.ThinFace)
        × ((round : List ℕ) × Contains rounds.now round × (length round < 3))) }
{
    for place in 0..rounds.len() {
        if rounds.list(place).len() < 3 {
            return Err(Refusal::ThinFace);
        }
    }
    Ok(())
}
