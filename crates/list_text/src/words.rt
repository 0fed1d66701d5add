//! The words of a line, which single spaces part.
ghost use Rattle.std.specs.Prelude.{◌≡◌};
ghost use Rattle.machine_defs.specs.ListingLines.{words_between};
ghost use Rattle.list_text.specs.Views.{words_left, TakesWord};

use crate::cut::cut;

/// The words that are left of a line: none, or those between the spaces of a text.
#[derive(Clone, Copy)]
pub(crate) struct Words<'a> {
    rest: Option<&'a [u8]>,
}

impl<'a> Words<'a> {
    /// The words between the spaces of a text.
    pub(crate) fn of(text: &'a [u8]) -> Words<'a>
        ensures { words_left result ≡ words_between text.now }
    {
        Words { rest: Some(text) }
    }

    /// The first word, and those behind it; none exactly where no word is left.
    pub(crate) fn take(self) -> Option<(&'a [u8], Words<'a>)>
        ensures { TakesWord result (words_left self.entry) }
    {
        let text = self.rest?;
        match cut(text, b' ') {
            Some((word, rest)) => Some((word, Words { rest: Some(rest) })),
            None => Some((text, Words { rest: None })),
        }
    }
}
