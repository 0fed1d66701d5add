ghost use Rattle.std.specs.Prelude.{◌≡◌, ◌+◌, ◌≤◌, ◌⊎◌, ◌↔◌, Contains, IfOk, OnOk};
ghost use Rattle.map_defs.specs.Kind.{beta, place};
ghost use Rattle.map_defs.specs.LinkWords.{LinkWord as MapWord};
ghost use Rattle.map_kind.specs.KindLaws.{inverse-inverse, IsDistant-symmetric, IsCellWord-inverse};
ghost use Rattle.map_kind.specs.VertexWords.{IsVertexWordBelow, IsVertexWordTo};

use crate::kind::Kind;
use crate::word::{LinkWord, single_links};
use std::alloc::{AllocError, Global};

/// The kind of combinatorial maps, which are oriented: link 1 leads on along a face and link 0 back, and the links from 2
/// upwards are involutions.
#[derive(Clone, Copy, Debug, PartialEq, Eq)]
pub struct Beta;

/// Where a link stands among the others: link 0 stands with link 1.
fn place(link: usize) -> usize
    ensures { result ≡ place beta link }
{
    link.max(1)
}

impl Kind for Beta {
    ghost kind = { beta };

    ghost inverse_twice = { inverse-inverse beta };

    ghost distant_symmetric = { IsDistant-symmetric beta };

    ghost words_turn = { IsCellWord-inverse beta };

    fn letter() -> u8 {
        b'c'
    }

    fn per_side() -> u32 {
        1
    }

    fn inverse(link: usize) -> usize {
        match link {
            0 => 1,
            1 => 0,
            _ => link,
        }
    }

    #[tactic(auto, unfolding(map_defs::specs::Kind::IsDistant))]
    fn distant(one: usize, other: usize) -> bool {
        place(one).abs_diff(place(other)) >= 2
    }

    fn words(alloc: Global, dim: usize, cell: usize) -> Result<Vec<LinkWord>, AllocError> {
        if cell == 0 {
            vertex_words(alloc, dim)
        } else if cell == 1 {
            single_links(alloc, 2, dim, cell)
        } else {
            single_links(alloc, 0, dim, cell)
        }
    }

    fn dual_word(dim: usize, link: usize) -> LinkWord {
        if link == 0 {
            LinkWord::two(Self::inverse(dim - 1), dim)
        } else if link == dim {
            LinkWord::one(dim)
        } else {
            LinkWord::two(dim, dim - link)
        }
    }
}

/// The words of a vertex: two links from 1 to `dim`, the farther one first, and the inverses of such words.
fn vertex_words(alloc: Global, dim: usize) -> Result<Vec<LinkWord>, AllocError>
    requires { dim ≤ 8 }
    ensures { IfOk result (λ words. (w : MapWord) → Contains words.items w ↔ IsVertexWordBelow (dim + 1) w) }
{
    let mut words = Vec::new(alloc);
    for far in 2..dim + 1 {
        add_words(&mut words, far)?;
    }
    Ok(words)
}

/// Adds the words of a vertex whose farther link is `far`.
fn add_words(words: &mut Vec<LinkWord>, far: usize) -> Result<(), AllocError>
    requires low { 2 ≤ far }
    requires high { far ≤ 8 }
    ensures { OnOk result ((w : MapWord) → Contains words.new.items w ↔ (Contains words.old.items w ⊎ IsVertexWordTo far far w)) }
{
    for near in 1..far {
        words.push(LinkWord::two(far, near))?;
        words.push(LinkWord::two(Beta::inverse(near), far))?;
    }
    Ok(())
}
