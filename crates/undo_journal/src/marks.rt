ghost use Rattle.std.specs.Prelude.{◌≡◌, ◌≤◌, ◌<◌, ◌-◌, ℕ, List, [], ◌∷◌, ◌++◌, length, take, map, Some, IfSome, OnOk, OnErr, ◌↔◌, slice_get, vec_capacity};
ghost use Rattle.std.specs.Option.{option_map};
ghost use Rattle.std.specs.BTreeMap.{get_by_text};
ghost use Rattle.trail_laws.specs.Trails.{Placed, IsMarkOf};
ghost use Rattle.undo_journal.specs.Entries.{placed_marks, IsNumberedBut};

use std::alloc::{AllocError, Global};
use std::collections::BTreeMap;
use std::marker::Model;

/// Marks, oldest first, each with a name of its own and a place. A name is found in a search tree and not by a hash, so that
/// no choice of names makes it slow. They are seen as the list of the marks.
#[derive(Drop)]
pub(crate) struct Marks {
    entries: Vec<(String, usize)>,
    // The number of each mark, by its name.
    numbers: BTreeMap<String, usize>,
}

impl Model for Marks {
    ghost use Rattle.std.specs.Prelude.{List};
    ghost use Rattle.std.specs.BTreeMap.{get_by_text};
    ghost use Rattle.trail_laws.specs.Trails.{Placed};
    ghost use Rattle.undo_journal.specs.Entries.{placed_marks, IsNumbered};

    ghost Value = { List Placed };

    ghost view = { λ marks. placed_marks marks.entries.items };

    ghost invariant = { λ marks. IsNumbered (get_by_text marks.numbers) (placed_marks marks.entries.items) };
}

impl Marks {
    /// No marks. It takes no memory.
    pub(crate) fn new(alloc: Global) -> Marks
        ensures { result ≡ [] }
    {
        Marks {
            entries: Vec::new(alloc),
            numbers: BTreeMap::new(alloc),
        }
    }

    /// How many marks there are.
    pub(crate) fn len(&self) -> usize
        ensures { result ≡ length self.now }
    {
        self.entries.len()
    }

    /// The number of the mark of this name, from 0, oldest first; none exactly where no mark has it. It costs the logarithm
    /// of the number of marks.
    pub(crate) fn number_of(&self, name: &str) -> Option<usize>
        ensures number { (k : ℕ) → (result ≡ Some k) ↔ IsMarkOf self.now name.now k }
    {
        self.numbers.get(name).copied()
    }

    /// The name of a mark by its number; none exactly where there is no such mark.
    pub(crate) fn name_of(&self, number: usize) -> Option<&str>
        ensures name { option_map (λ name. name.now) result ≡ slice_get (map (λ (m : Placed). m.name) self.now) number }
    {
        let (name, _place) = self.entries.get(number)?;
        Some(name.as_str())
    }

    /// The place of a mark by its number.
    pub(crate) fn place_of(&self, number: usize) -> usize
        requires { number < length self.now }
        ensures place { slice_get (map (λ (m : Placed). m.place) self.now) number ≡ Some result }
    {
        self.entries[number].1
    }

    /// Keeps the first `kept` marks and drops the others. It takes no memory, and costs what it drops.
    pub(crate) fn truncate(&mut self, kept: usize)
        ensures { self.new ≡ take kept self.old }
    {
        keep_first(&mut self.entries, &mut self.numbers, kept, None);
    }

    /// Keeps the first `kept` marks, drops the others, and adds a mark of a new name. Want of memory leaves the marks as they
    /// were.
    pub(crate) fn replace_behind(
        &mut self,
        kept: usize,
        name: &str,
        place: usize,
    ) -> Result<(), AllocError>
        requires within { kept ≤ length self.old }
        requires new { (k : ℕ) → IsMarkOf (take kept self.old) name.now k → ⊥ }
        ensures marks { OnOk result (self.new ≡ take kept self.old ++ record { name = name.now; place = place } ∷ []) }
        ensures err { OnErr result (self.new ≡ self.old) }
    {
        let alloc = *self.entries.allocator();
        let kept_name = String::from_str(alloc, name)?;
        let key = String::from_str(alloc, name)?;
        self.entries.reserve(1)?;
        self.numbers.insert(key, kept)?;
        keep_first(&mut self.entries, &mut self.numbers, kept, Some(name));
        self.entries.push_reserved((kept_name, place));
        Ok(())
    }
}

/// Keeps the first `kept` entries. The names of the others go out of the numbers, but for one that is spared.
fn keep_first(
    entries: &mut Vec<(String, usize)>,
    numbers: &mut BTreeMap<String, usize>,
    kept: usize,
    spared: Option<&str>,
)
    requires numbered { IsNumberedBut spared (get_by_text numbers.old) (placed_marks entries.old.items) }
    ensures entries { entries.new.items ≡ take kept entries.old.items }
    ensures numbered { IsNumberedBut spared.entry (get_by_text numbers.new) (placed_marks entries.new.items) }
    ensures spared { IfSome spared.entry (λ s. get_by_text numbers.new s.now ≡ get_by_text numbers.old s.now) }
    ensures capacity { vec_capacity entries.new ≡ vec_capacity entries.old }
{
    while entries.len() > kept {
        drop_last(entries, numbers, spared);
    }
}

/// Drops the last entry. Its name goes out of the numbers, unless it is spared.
fn drop_last(
    entries: &mut Vec<(String, usize)>,
    numbers: &mut BTreeMap<String, usize>,
    spared: Option<&str>,
)
    requires some { 0 < length entries.old.items }
    requires numbered { IsNumberedBut spared (get_by_text numbers.old) (placed_marks entries.old.items) }
    ensures entries { entries.new.items ≡ take (length entries.old.items - 1) entries.old.items }
    ensures numbered { IsNumberedBut spared.entry (get_by_text numbers.new) (placed_marks entries.new.items) }
    ensures spared { IfSome spared.entry (λ s. get_by_text numbers.new s.now ≡ get_by_text numbers.old s.now) }
    ensures capacity { vec_capacity entries.new ≡ vec_capacity entries.old }
{
    let Some((name, _place)) = entries.pop() else {
        return;
    };
    if spared != Some(name.as_str()) {
        numbers.remove(name.as_str());
    }
}
