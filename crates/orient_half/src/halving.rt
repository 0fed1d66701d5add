ghost use Rattle.std.specs.Prelude.{◌≡◌, ◌+◌, ◌≤◌, length, map, filter, IfOk};
ghost use Rattle.map_defs.specs.Kind.{alpha, beta};
ghost use Rattle.map_defs.specs.Rows.{IsLive, links_of};
ghost use Rattle.map_defs.specs.Laws.{Laws};
ghost use Rattle.half_defs.specs.Halves.{origin, AreOrigins, IsHalf, HasDarts};
ghost use Rattle.half_defs.specs.Orientation.{IsOriented, IsPositive};
ghost use Rattle.orient_half.specs.Entries.{half_word, IsHalfEntry, AreSetUpTo};

use crate::builder::free_darts;
use crate::ranks::Ranks;
use crate::sign::Sign;
use cell_walk::follow;
use link_rows::{LinkBuilder, Links, MADE_MAX};
use map_kind::{Alpha, Beta, Dart, LinkWord};
use std::alloc::{AllocError, Global};

/// The half of a generalized map: a combinatorial map whose darts are the positive darts of the map, numbered on from 1 in
/// their order.
#[derive(Drop)]
pub struct HalfMap<const DIM: usize> {
    pub links: Links<Beta, DIM>,
    /// For each dart of the half, in order, the positive dart from which it comes.
    pub origin: Vec<Dart>,
}

/// The half of a generalized map whose darts have these signs. Link i of the half runs along link 0 and then link i of the
/// map. An error comes for want of memory only.
///
/// It costs a few steps for each link of the darts that were made.
pub fn half<const DIM: usize>(
    alloc: Global,
    links: &Links<Alpha, DIM>,
    signs: &[Sign],
) -> Result<HalfMap<DIM>, AllocError>
    requires laws { Laws alpha (links_of links.now.rows) }
    requires oriented { IsOriented DIM (IsLive links.now.rows) (links_of links.now.rows) signs.now }
    ensures positive { IfOk result (λ half. AreOrigins (IsPositive signs.now) half.origin.items) }
    ensures darts { IfOk result (λ half. HasDarts DIM (length half.origin.items) half.links.rows) }
    ensures half { IfOk result (λ half. IsHalf DIM (links_of links.now.rows) half.origin.items (links_of half.links.rows)) }
    ensures laws { IfOk result (λ half. Laws beta (links_of half.links.rows)) }
{
    links.see_sound();
    let positive = positive_darts(alloc, signs)?;
    let ranks = Ranks::new(alloc, positive, links.made())?;
    let builder = half_links(alloc, links, &ranks)?;
    Ok(HalfMap {
        links: builder.finish(),
        origin: ranks.into_darts(),
    })
}

/// The positive darts, in the order of the signs.
fn positive_darts(alloc: Global, signs: &[Sign]) -> Result<Vec<Dart>, AllocError>
    ensures { IfOk result (λ darts. darts.items ≡ map (λ sign. sign.dart) (filter (λ sign. sign.positive) signs.now)) }
{
    signs
        .iter()
        .filter(|sign| sign.positive)
        .map(|sign| sign.dart)
        .collect(alloc)
}

/// The links of the half, all set.
fn half_links<const DIM: usize>(
    alloc: Global,
    links: &Links<Alpha, DIM>,
    ranks: &Ranks,
) -> Result<LinkBuilder<Beta, DIM>, AllocError>
    requires low { 2 ≤ DIM }
    requires high { DIM ≤ 8 }
    requires few { length ranks.now ≤ MADE_MAX }
    ensures { IfOk result (λ builder. AreSetUpTo DIM (length ranks.now) (IsHalfEntry (links_of links.now.rows) ranks.now)
        (length ranks.now + 1) 0 builder.rows) }
{
    let mut builder = free_darts(alloc, ranks.len())?;
    for rank in 1..ranks.len() + 1 {
        set_links(&mut builder, links, ranks, rank);
    }
    Ok(builder)
}

/// Sets the links of the dart of a rank.
fn set_links<const DIM: usize>(
    builder: &mut LinkBuilder<Beta, DIM>,
    links: &Links<Alpha, DIM>,
    ranks: &Ranks,
    rank: u32,
)
    requires low { 1 ≤ rank }
    requires high { rank ≤ length ranks.now }
    requires before { AreSetUpTo DIM (length ranks.now) (IsHalfEntry (links_of links.now.rows) ranks.now) rank 0 builder.old.rows }
    ensures { AreSetUpTo DIM (length ranks.now) (IsHalfEntry (links_of links.now.rows) ranks.now) (rank + 1) 0 builder.new.rows }
{
    let dart = Dart::new(rank).unwrap();
    for link in 0..links.dimension() + 1 {
        builder.set(dart, link, half_link(links, ranks, rank, link));
    }
}

/// The rank to which a link leads from a rank.
fn half_link<const DIM: usize>(
    links: &Links<Alpha, DIM>,
    ranks: &Ranks,
    rank: u32,
    link: usize,
) -> u32
    requires dim { 2 ≤ DIM }
    requires low { 1 ≤ rank }
    requires high { rank ≤ length ranks.now }
    requires link { link ≤ DIM }
    ensures { IsHalfEntry (links_of links.now.rows) ranks.now link rank result }
{
    ranks.rank(follow(links, half_word(link), ranks.dart(rank)))
}

/// The word of the map along which a link of the half runs.
fn half_word(link: usize) -> LinkWord
    ensures { result ≡ half_word link }
{
    if link == 0 {
        LinkWord::two(1, 0)
    } else {
        LinkWord::two(0, link)
    }
}
