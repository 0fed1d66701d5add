ghost use Rattle.std.specs.Prelude.{◌≡◌};

use std::marker::Model;

/// An undo that can be taken back: the number of the mark that it went to, and how many steps and marks stood before it.
#[derive(Clone, Copy)]
pub(crate) struct Ahead {
    pub(crate) mark: usize,
    pub(crate) at: usize,
    pub(crate) standing: usize,
}

impl Model for Ahead {
    ghost use Rattle.trail_laws.specs.Trails as trails;

    ghost Value = { trails.Ahead };

    ghost view = { λ undo. record { mark = undo.mark; at = undo.at; standing = undo.standing } };

    ghost inverse = { λ undo. record { mark = undo.mark; at = undo.at; standing = undo.standing } };
}
