ghost use Rattle.std.specs.Prelude.{◌≡◌, ◌≢◌, ℕ, ◌+◌, ◌≤◌, ◌<◌, ◌^◌, ◌↔◌, Contains, IfOk};
ghost use Rattle.map_defs.specs.LinkWords.{LinkWord as MapWord, one_link, two_links};

use std::alloc::{AllocError, Global};
use std::marker::Model;

/// A word: one link, or two links that are followed one after the other.
#[derive(Clone, Copy, Debug, PartialEq, Eq)]
pub struct LinkWord {
    /// The link that is followed first.
    pub first: usize,
    /// The link that is followed then, if there is one.
    pub second: Option<usize>,
}

impl Model for LinkWord {
    ghost use Rattle.map_defs.specs.LinkWords.{LinkWord as MapWord};

    ghost Value = { MapWord };

    ghost view = { λ word. record { first = word.first; second = word.second } };

    ghost inverse = { λ word. record { first = word.first; second = word.second } };
}

impl LinkWord {
    /// The word of one link.
    pub fn one(link: usize) -> Self
        ensures { result ≡ one_link link }
    {
        LinkWord {
            first: link,
            second: None,
        }
    }

    /// The word of two links, the first of which is followed first.
    pub fn two(first: usize, second: usize) -> Self
        ensures { result ≡ two_links first second }
    {
        LinkWord {
            first,
            second: Some(second),
        }
    }
}

/// The words of one link each, from link `low` to link `dim`, but for the link `cell`.
pub(crate) fn single_links(
    alloc: Global,
    low: usize,
    dim: usize,
    cell: usize,
) -> Result<Vec<LinkWord>, AllocError>
    requires { dim ≤ 8 }
    ensures { IfOk result (λ words. (w : MapWord)
        → Contains words.items w ↔ ((j : ℕ) × (low ≤ j) × (j ≤ dim) × (j ≢ cell) × (w ≡ one_link j))) }
{
    let mut words = Vec::new(alloc);
    for link in low..dim + 1 {
        if link == cell {
            continue;
        }
        words.push(LinkWord::one(link))?;
    }
    Ok(words)
}
