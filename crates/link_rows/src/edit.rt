ghost use Rattle.std.specs.Prelude.{◌≡◌, ◌<◌, Contains, IfOk, IfSome, IsNone};
ghost use Rattle.map_defs.specs.Edits as edits;

use crate::born::BornRows;
use map_kind::Dart;
use std::alloc::{AllocError, Global};
use std::marker::Model;

/// A change of one link of one dart. `old` and `new` are the dart at the link before and after, 0 where it is free.
#[derive(Clone, Copy, Debug, PartialEq, Eq)]
pub struct Change {
    pub dart: Dart,
    pub link: usize,
    pub old: u32,
    pub new: u32,
}

impl Model for Change {
    ghost use Rattle.map_defs.specs.Edits as edits;

    ghost Value = { edits.Change };

    ghost view = { λ change. record { dart = change.dart; link = change.link; old = change.old; new = change.new } };

    ghost inverse = { λ change. record { dart = change.dart; link = change.link; old = change.old; new = change.new } };
}

impl Change {
    /// The change of a link of a dart from one number to another.
    pub fn new(dart: Dart, link: usize, old: u32, new: u32) -> Change
        ensures { result ≡ record { dart = dart; link = link; old = old; new = new } }
    {
        Change {
            dart,
            link,
            old,
            new,
        }
    }
}

/// An edit of links: darts that are born without links, numbered on from those that were made; changes of links; and
/// darts that end, whose links the changes have freed. Of new darts, rows may tell the links in place of changes, and also
/// the links that lead back to them, which takes less memory.
#[derive(Drop)]
pub struct Edit {
    pub births: u32,
    pub deaths: Vec<Dart>,
    pub changes: Vec<Change>,
    pub born: BornRows,
}

impl Model for Edit {
    ghost use Rattle.std.specs.Prelude.{◌++◌};
    ghost use Rattle.map_defs.specs.Edits as edits;
    ghost use Rattle.link_rows.specs.BornRows.{rows_changes, led_back};

    ghost Value = { edits.Edit };

    ghost view = { λ edit. record {
      births = edit.births;
      deaths = edit.deaths.items;
      changes = edit.changes.items ++ (led_back edit.born.back edit.born.first edit.born.rows ++ rows_changes edit.born.first edit.born.rows);
    } };
}

impl Edit {
    /// All changes, those that the rows of new darts tell among them.
    pub fn all_changes(&self, alloc: Global) -> Result<Vec<Change>, AllocError>
        ensures { IfOk result (λ changes. changes.items ≡ self.now.changes) }
    {
        let mut changes = Vec::from_slice(alloc, &self.changes)?;
        self.born.append_changes(&mut changes)?;
        Ok(changes)
    }

    /// The change of a link of a dart, if there is one.
    pub fn change_of(&self, dart: Dart, link: usize) -> Option<Change>
        ensures some { IfSome result (λ change. Contains self.now.changes change × (change.dart ≡ dart) × (change.link ≡ link)) }
        ensures none { IsNone result → (c : edits.Change) → Contains self.now.changes c → c.dart ≡ dart → c.link ≡ link → ⊥ }
    {
        match change_among(&self.changes, dart, link) {
            Some(change) => Some(change),
            None => self.born.change_of(dart, link),
        }
    }
}

/// The change of a link of a dart among these, if there is one.
fn change_among(changes: &[Change], dart: Dart, link: usize) -> Option<Change>
    ensures some { IfSome result (λ change. Contains changes.now change × (change.dart ≡ dart) × (change.link ≡ link)) }
    ensures none { IsNone result → (c : edits.Change) → Contains changes.now c → c.dart ≡ dart → c.link ≡ link → ⊥ }
{
    for change in changes {
        if change.dart == dart && change.link == link {
            return Some(*change);
        }
    }
    None
}

/// An edit that changes alone tell, as a journal notes it: darts that are born without links, numbered on from those that
/// were made; changes of links; and darts that end, whose links the changes have freed.
#[derive(Drop)]
pub struct PlainEdit {
    pub births: u32,
    pub deaths: Vec<Dart>,
    pub changes: Vec<Change>,
}

impl Model for PlainEdit {
    ghost use Rattle.map_defs.specs.Edits as edits;

    ghost Value = { edits.Edit };

    ghost view = { λ edit. record { births = edit.births; deaths = edit.deaths.items; changes = edit.changes.items } };
}
