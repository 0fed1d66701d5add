ghost use Rattle.std.specs.Prelude.{◌≡◌, ℕ, ◌≤◌, ◌<◌, ◌-◌, ◌↔◌, IsTrue, Contains, IfOk};
ghost use Rattle.map_defs.specs.Kind.{Kind as MapKind, alpha, inverse, IsDistant, letter};
ghost use Rattle.map_defs.specs.Dual.{dual_word};
ghost use Rattle.map_defs.specs.Polygon.{per_side};
ghost use Rattle.map_defs.specs.LinkWords.{LinkWord as MapWord, IsCellWord, IsWithin, inverse_word};
ghost use Rattle.map_kind.specs.KindLaws.{inverse-inverse, IsDistant-symmetric, IsCellWord-inverse};

use crate::word::{LinkWord, single_links};
use std::alloc::{AllocError, Global};

/// A kind of map: generalized, or combinatorial. What a kind means is its ghost member `kind`, so that all that is
/// said of links is said once, for both kinds.
pub trait Kind {
    ghost kind: { MapKind };

    /// The kind's letter in scripts and listings, as a byte: `g` for generalized, `c` for combinatorial maps.
    fn letter() -> u8
        ensures { result ≡ letter kind };

    /// How many darts one side of a face has: 2 in a generalized map, 1 in a combinatorial map.
    fn per_side() -> u32
        ensures { result ≡ per_side kind };

    /// The link that leads back: each link is its own inverse, but 0 and 1 of a combinatorial map are each other's.
    fn inverse(link: usize) -> usize
        ensures { result ≡ inverse kind link };

    /// Whether two links stand at least two places apart, where 0 of a combinatorial map stands with 1.
    fn distant(one: usize, other: usize) -> bool
        ensures { IsTrue result ↔ IsDistant kind one other };

    /// The words of the cells of dimension `cell` in a map of dimension `dim`: the words along which such a cell runs,
    /// and their inverses, as far as their links are among the map's.
    fn words(alloc: Global, dim: usize, cell: usize) -> Result<Vec<LinkWord>, AllocError>
        requires dim { dim ≤ 8 }
        requires cell { cell ≤ dim }
        ensures { IfOk result (λ words. (w : MapWord) → Contains words.items w ↔ (IsCellWord kind cell w × IsWithin dim w)) };

    /// The word of a map of dimension `dim` along which link `link` of its dual runs. In a combinatorial map link 0 of the
    /// dual runs along link 1 backwards.
    fn dual_word(dim: usize, link: usize) -> LinkWord
        requires low { 2 ≤ dim }
        requires high { dim ≤ 8 }
        requires link { link ≤ dim }
        ensures { result ≡ dual_word kind dim link };

    ghost inverse_twice: { (i : ℕ) → inverse kind (inverse kind i) ≡ i };

    ghost distant_symmetric: { (i j : ℕ) → IsDistant kind i j → IsDistant kind j i };

    ghost words_turn: { (i : ℕ) (w : MapWord) → IsCellWord kind i w → IsCellWord kind i (inverse_word kind w) };
}

/// Whether maps of the kind are generalized, whose links are each their own inverse.
pub fn is_generalized<K: Kind>() -> bool
    ensures { IsTrue result ↔ (K.kind ≡ alpha) }
{
    K::inverse(0) == 0
}

/// The kind of generalized maps, whose links are the involutions alpha 0 to n.
#[derive(Clone, Copy, Debug, PartialEq, Eq)]
pub struct Alpha;

impl Kind for Alpha {
    ghost kind = { alpha };

    ghost inverse_twice = { inverse-inverse alpha };

    ghost distant_symmetric = { IsDistant-symmetric alpha };

    ghost words_turn = { IsCellWord-inverse alpha };

    fn letter() -> u8 {
        b'g'
    }

    fn per_side() -> u32 {
        2
    }

    fn inverse(link: usize) -> usize {
        link
    }

    #[tactic(auto, unfolding(map_defs::specs::Kind::IsDistant))]
    fn distant(one: usize, other: usize) -> bool {
        one.abs_diff(other) >= 2
    }

    fn words(alloc: Global, dim: usize, cell: usize) -> Result<Vec<LinkWord>, AllocError> {
        single_links(alloc, 0, dim, cell)
    }

    fn dual_word(dim: usize, link: usize) -> LinkWord {
        LinkWord::one(dim - link)
    }
}
