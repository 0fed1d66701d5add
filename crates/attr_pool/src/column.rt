ghost use Rattle.std.specs.Prelude.{◌≡◌, ℕ, ◌+◌, ◌≤◌, ◌<◌, [], length, take, slice_set, OnOk, OnErr};
ghost use Rattle.store_defs.specs.Labelings.{id_at};
ghost use Rattle.attr_pool.specs.Columns.{KeepsColumn, number_of};

use crate::id::AttrId;
use std::alloc::{AllocError, Global};
use std::marker::Model;

/// The ids of one dimension, each at the place of its dart's number, and 0 where the dart has none.
#[derive(Drop)]
pub(crate) struct Column {
    ids: Vec<u32>,
}

impl Model for Column {
    ghost use Rattle.std.specs.Prelude.{ℕ, List};

    ghost Value = { List ℕ };

    ghost view = { λ column. column.ids.items };
}

impl Column {
    /// The column without places. It takes no memory.
    pub(crate) fn new(alloc: Global) -> Self
        ensures { result ≡ [] }
    {
        Column {
            ids: Vec::new(alloc),
        }
    }

    /// Makes places for the darts up to `made`, which have no ids yet.
    pub(crate) fn open(&mut self, made: u32) -> Result<(), AllocError>
        ensures kept { KeepsColumn self.old self.new }
        ensures long { OnOk result (made < length self.new) }
        ensures err { OnErr result (self.new ≡ self.old) }
    {
        if (made as usize) < self.ids.len() {
            return Ok(());
        }
        self.ids.resize(made as usize + 1, 0)
    }

    /// Makes further places for the darts up to `made`, if there are places at all.
    pub(crate) fn grow(&mut self, made: u32) -> Result<(), AllocError>
        ensures kept { KeepsColumn self.old self.new }
        ensures long { OnOk result (0 < length self.old → made < length self.new) }
        ensures none { length self.old ≡ 0 → length self.new ≡ 0 }
    {
        if self.ids.is_empty() {
            return Ok(());
        }
        self.open(made)
    }

    /// Takes the places of the darts above `made` away.
    pub(crate) fn cut(&mut self, made: u32)
        ensures { self.new ≡ take (made + 1) self.old }
    {
        self.ids.truncate(made as usize + 1);
    }

    /// The id of a dart's number.
    pub(crate) fn id(&self, number: u32) -> Option<AttrId>
        ensures { result ≡ id_at self.now number }
    {
        AttrId::new(*self.ids.get(number as usize)?)
    }

    /// Gives a dart's number this id.
    pub(crate) fn put(&mut self, number: u32, id: Option<AttrId>)
        requires { number < length self.old }
        ensures { self.new ≡ slice_set self.old number (number_of id) }
    {
        self.ids[number as usize] = match id {
            Some(id) => id.number(),
            None => 0,
        };
    }
}
