ghost use Rattle.std.specs.Prelude.{◌≡◌, ◌-◌, ◌≤◌, ◌<◌, [], ◌∷◌, ◌++◌, length, take, drop, slice_index_or, OnOk, OnErr};
ghost use Rattle.std.specs.List.{sum_by};
ghost use Rattle.flat_lists.specs.Cutting.{cut, AreEnds, start_from};

use std::alloc::{AllocError, Global};
use std::marker::Model;

/// Lists, in an order of their own. The items of all lists lie in one vector, so that a short list takes no memory of its
/// own. It is seen as the list of these lists.
#[derive(Drop)]
pub struct Lists<T> {
    // The items of all lists, one list after the other.
    items: Vec<T>,
    // Where the items of each list end.
    ends: Vec<usize>,
}

impl<T> Model for Lists<T> {
    ghost use Rattle.std.specs.Prelude.{List, length};
    ghost use Rattle.std.specs.Coded.{coded_list};

    ghost Value = { List (List T) };

    ghost coded = { coded_list (coded_list T.code) };

    ghost use Rattle.flat_lists.specs.Cutting.{cut, AreEnds};

    ghost view = { λ lists. cut 0 lists.items.items lists.ends.items };

    ghost invariant = { λ lists. AreEnds 0 lists.ends.items (length lists.items.items) };
}

impl<T> Lists<T> {
    /// No lists. It takes no memory.
    pub fn new(alloc: Global) -> Self
        ensures { result ≡ [] }
    {
        Lists {
            items: Vec::new(alloc),
            ends: Vec::new(alloc),
        }
    }

    /// The lists of these items, one list after the other, by where each of them ends.
    pub fn from_parts(items: Vec<T>, ends: Vec<usize>) -> Self
        requires { AreEnds 0 ends.items (length items.items) }
        ensures { result ≡ cut 0 items.items ends.items }
    {
        Lists { items, ends }
    }

    /// How many lists there are.
    pub fn len(&self) -> usize
        ensures { result ≡ length self.now }
    {
        self.ends.len()
    }

    /// How many items all lists have together.
    pub fn item_count(&self) -> usize
        ensures { result ≡ sum_by length self.now }
    {
        self.items.len()
    }

    /// The list at a place. Places count from 0.
    pub fn list(&self, place: usize) -> &[T]
        requires { place < length self.now }
        ensures { result.now ≡ slice_index_or self.now place [] }
    {
        between(&self.items, start_of(&self.ends, place), self.ends[place])
    }
}

impl<T: Copy> Lists<T> {
    /// Appends a list of these items. Want of memory leaves the lists as they were.
    pub fn push(&mut self, items: &[T]) -> Result<(), AllocError>
        ensures ok { OnOk result (self.new ≡ self.old ++ items.now ∷ []) }
        ensures err { OnErr result (self.new ≡ self.old) }
    {
        self.ends.reserve(1)?;
        self.items.extend_from_slice(items)?;
        self.ends.push_reserved(self.items.len());
        Ok(())
    }
}

/// Where the items of a list begin: where those of the list before it end.
fn start_of(ends: &[usize], place: usize) -> usize
    requires { place ≤ length ends.now }
    ensures { result ≡ start_from 0 ends.now place }
{
    if place == 0 { 0 } else { ends[place - 1] }
}

/// The items from one place up to another, which is not among them.
fn between<T>(items: &[T], start: usize, end: usize) -> &[T]
    requires ordered { start ≤ end }
    requires within { end ≤ length items.now }
    ensures { result.now ≡ take (end - start) (drop start items.now) }
{
    &items[start..end]
}
