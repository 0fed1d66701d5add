ghost use Rattle.std.specs.Prelude.{◌≡◌, ◌+◌, ◌-◌, ◌<◌, ◌≤◌, length, IfOk, OnOk};
ghost use Rattle.map_defs.specs.Kind.{alpha, beta};
ghost use Rattle.map_defs.specs.Rows.{IsLive, links_of, live_count};
ghost use Rattle.map_defs.specs.Laws.{Laws};
ghost use Rattle.half_defs.specs.Halves.{AreOrigins, IsDouble, HasDarts, odd_dart, even_dart};
ghost use Rattle.orient_half.specs.Entries.{IsAhead, IsBehind, IsDoubleEntry, AreSetUpTo};
ghost use Rattle.orient_half.specs.LiveDarts.{AreLiveBelow};

use crate::builder::free_darts;
use crate::ranks::Ranks;
use link_rows::{LinkBuilder, Links, MADE_MAX};
use map_kind::{Alpha, Beta, Dart, Kind};
use std::alloc::{AllocError, Global};

/// The double of a combinatorial map: a generalized map with two darts for each live dart of the map. The live darts,
/// ascending, have the ranks 1, 2 and so on, and the darts of rank r are 2r - 1 and 2r.
#[derive(Drop)]
pub struct DoubleMap<const DIM: usize> {
    pub links: Links<Alpha, DIM>,
    /// For each rank, in order, the live dart from which its two darts come.
    pub origin: Vec<Dart>,
}

/// The double of a combinatorial map. Link 0 joins the two darts of a rank. Where link i of the map leads from a dart to
/// another, link i of the double joins the even dart of the first to the odd dart of the other. An error comes for want of
/// memory only.
///
/// It costs a few steps for each link of the darts that were made.
pub fn double<const DIM: usize>(
    alloc: Global,
    links: &Links<Beta, DIM>,
) -> Result<DoubleMap<DIM>, AllocError>
    requires laws { Laws beta (links_of links.now.rows) }
    requires few { live_count links.now.rows + live_count links.now.rows ≤ MADE_MAX }
    ensures live { IfOk result (λ double. AreOrigins (IsLive links.now.rows) double.origin.items) }
    ensures darts { IfOk result (λ double. HasDarts DIM (length double.origin.items + length double.origin.items) double.links.rows) }
    ensures double { IfOk result (λ double. IsDouble DIM (links_of links.now.rows) double.origin.items (links_of double.links.rows)) }
    ensures laws { IfOk result (λ double. Laws alpha (links_of double.links.rows)) }
{
    links.see_sound();
    let live = live_darts(alloc, links)?;
    let ranks = Ranks::new(alloc, live, links.made())?;
    let builder = double_links(alloc, links, &ranks)?;
    Ok(DoubleMap {
        links: builder.finish(),
        origin: ranks.into_darts(),
    })
}

/// The live darts, ascending.
fn live_darts<const DIM: usize>(
    alloc: Global,
    links: &Links<Beta, DIM>,
) -> Result<Vec<Dart>, AllocError>
    ensures live { IfOk result (λ darts. AreOrigins (IsLive links.now.rows) darts.items) }
    ensures count { IfOk result (λ darts. length darts.items ≡ live_count links.now.rows) }
{
    let mut darts = Vec::with_capacity(alloc, links.live_count() as usize)?;
    for number in 1..links.made() + 1 {
        push_live(links, Dart::new(number).unwrap(), &mut darts)?;
    }
    Ok(darts)
}

/// Appends a dart, if it is live.
fn push_live<const DIM: usize>(
    links: &Links<Beta, DIM>,
    dart: Dart,
    darts: &mut Vec<Dart>,
) -> Result<(), AllocError>
    requires within { dart < length links.now.rows }
    requires before { AreLiveBelow links.now.rows dart darts.old.items }
    ensures { OnOk result (AreLiveBelow links.now.rows (dart + 1) darts.new.items) }
{
    if !links.is_live(dart) {
        return Ok(());
    }
    darts.push(dart)?;
    Ok(())
}

/// The links of the double, all set.
fn double_links<const DIM: usize>(
    alloc: Global,
    links: &Links<Beta, DIM>,
    ranks: &Ranks,
) -> Result<LinkBuilder<Alpha, DIM>, AllocError>
    requires low { 2 ≤ DIM }
    requires high { DIM ≤ 8 }
    requires few { length ranks.now + length ranks.now ≤ MADE_MAX }
    ensures { IfOk result (λ builder. AreSetUpTo DIM (length ranks.now + length ranks.now)
        (IsDoubleEntry (links_of links.now.rows) ranks.now) (length ranks.now + length ranks.now + 1) 0 builder.rows) }
{
    let mut builder = free_darts(alloc, even_dart(ranks.len()))?;
    for rank in 1..ranks.len() + 1 {
        set_odd(&mut builder, links, ranks, rank);
        set_even(&mut builder, links, ranks, rank);
    }
    Ok(builder)
}

/// Sets the links of the odd dart of a rank.
fn set_odd<const DIM: usize>(
    builder: &mut LinkBuilder<Alpha, DIM>,
    links: &Links<Beta, DIM>,
    ranks: &Ranks,
    rank: u32,
)
    requires low { 1 ≤ rank }
    requires high { rank ≤ length ranks.now }
    requires few { length ranks.now + length ranks.now ≤ MADE_MAX }
    requires before { AreSetUpTo DIM (length ranks.now + length ranks.now) (IsDoubleEntry (links_of links.now.rows) ranks.now)
        (odd_dart rank) 0 builder.old.rows }
    ensures { AreSetUpTo DIM (length ranks.now + length ranks.now) (IsDoubleEntry (links_of links.now.rows) ranks.now)
        (even_dart rank) 0 builder.new.rows }
{
    let dart = Dart::new(odd_dart(rank)).unwrap();
    for link in 0..links.dimension() + 1 {
        let behind = rank_behind(links, ranks, rank, link);
        builder.set(dart, link, even_dart(behind));
    }
}

/// Sets the links of the even dart of a rank.
fn set_even<const DIM: usize>(
    builder: &mut LinkBuilder<Alpha, DIM>,
    links: &Links<Beta, DIM>,
    ranks: &Ranks,
    rank: u32,
)
    requires low { 1 ≤ rank }
    requires high { rank ≤ length ranks.now }
    requires few { length ranks.now + length ranks.now ≤ MADE_MAX }
    requires before { AreSetUpTo DIM (length ranks.now + length ranks.now) (IsDoubleEntry (links_of links.now.rows) ranks.now)
        (even_dart rank) 0 builder.old.rows }
    ensures { AreSetUpTo DIM (length ranks.now + length ranks.now) (IsDoubleEntry (links_of links.now.rows) ranks.now)
        (odd_dart (rank + 1)) 0 builder.new.rows }
{
    let dart = Dart::new(even_dart(rank)).unwrap();
    for link in 0..links.dimension() + 1 {
        let ahead = rank_ahead(links, ranks, rank, link);
        builder.set(dart, link, odd_dart(ahead));
    }
}

/// The rank to whose odd dart a link leads from the even dart of a rank.
fn rank_ahead<const DIM: usize>(
    links: &Links<Beta, DIM>,
    ranks: &Ranks,
    rank: u32,
    link: usize,
) -> u32
    requires low { 1 ≤ rank }
    requires high { rank ≤ length ranks.now }
    requires link { link ≤ DIM }
    ensures ahead { IsAhead (links_of links.now.rows) ranks.now link rank result }
    ensures within { result ≤ length ranks.now }
{
    if link == 0 {
        rank
    } else {
        ranks.rank(links.link(ranks.dart(rank), link))
    }
}

/// The rank to whose even dart a link leads from the odd dart of a rank.
fn rank_behind<const DIM: usize>(
    links: &Links<Beta, DIM>,
    ranks: &Ranks,
    rank: u32,
    link: usize,
) -> u32
    requires low { 1 ≤ rank }
    requires high { rank ≤ length ranks.now }
    requires link { link ≤ DIM }
    ensures behind { IsBehind (links_of links.now.rows) ranks.now link rank result }
    ensures within { result ≤ length ranks.now }
{
    if link == 0 {
        rank
    } else {
        ranks.rank(links.link(ranks.dart(rank), Beta::inverse(link)))
    }
}

/// The number of the odd dart of a rank; rank 0 has none.
fn odd_dart(rank: u32) -> u32
    requires { rank + rank ≤ MADE_MAX }
    ensures number { result ≡ odd_dart rank }
    ensures some { 1 ≤ rank → 1 ≤ result }
{
    if rank == 0 { 0 } else { 2 * rank - 1 }
}

/// The number of the even dart of a rank; rank 0 has none.
fn even_dart(rank: u32) -> u32
    requires { rank + rank ≤ MADE_MAX }
    ensures { result ≡ even_dart rank }
{
    2 * rank
}
