ghost use Rattle.std.specs.Prelude.{◌≡◌, ℕ, nat_eq, cond, None, Some, OnOk, position};
ghost use Rattle.transport.specs.Tallies.{told_of};

use attr_pool::AttrId;
use std::alloc::{AllocError, Global};
use std::collections::BTreeMap;

/// How many ids stand in the list.
pub(crate) const FEW: usize = 16;

/// An id, and what is told of it.
#[derive(Clone, Copy)]
pub(crate) struct Entry<V> {
    pub(crate) id: AttrId,
    pub(crate) told: V,
}

/// What is told of ids: of the first few in a list, which is quickly looked through, and of all others in a map.
#[derive(Drop)]
pub(crate) struct ById<V> {
    pub(crate) first: Vec<Entry<V>>,
    pub(crate) more: BTreeMap<AttrId, V>,
}

impl<V: Copy> ById<V> {
    /// Nothing is told yet.
    pub(crate) fn new(alloc: Global) -> Self
        ensures { (id : ℕ) → told_of result id ≡ None }
    {
        ById {
            first: Vec::new(alloc),
            more: BTreeMap::new(alloc),
        }
    }

    /// What is told of an id, if anything.
    pub(crate) fn get(&self, id: AttrId) -> Option<V>
        ensures { result ≡ told_of self.now id }
    {
        match self.place(id) {
            Some(place) => Some(self.first[place].told),
            None => self.more.get(&id).copied(),
        }
    }

    /// Tells of an id, in place of what was told before.
    pub(crate) fn put(&mut self, id: AttrId, told: V) -> Result<(), AllocError>
        ensures { OnOk result ((other : ℕ)
            → told_of self.new other ≡ cond (nat_eq id other) (Some told) (told_of self.old other)) }
    {
        if let Some(place) = self.place(id) {
            self.first[place] = Entry { id, told };
            return Ok(());
        }
        if self.first.len() < FEW {
            self.first.push(Entry { id, told })?;
            return Ok(());
        }
        self.more.insert(id, told)?;
        Ok(())
    }

    /// Forgets what was told of all ids.
    pub(crate) fn forget(&mut self)
        ensures { (id : ℕ) → told_of self.new id ≡ None }
    {
        self.first.clear();
        self.more.clear();
    }

    /// The place of an id in the list, if it is there.
    fn place(&self, id: AttrId) -> Option<usize>
        ensures { result ≡ position (λ e. nat_eq e.id id) self.now.first.items }
    {
        self.first.iter().position(|entry| entry.id == id)
    }
}
