ghost use Rattle.std.specs.Prelude.{◌≡◌, ℕ, List, ◌+◌, ◌≤◌, ◌↔◌, [], ◌∷◌, ◌++◌, drop, Contains, IsTrue, IfOk, OnOk, OnErr, vec_len, vec_capacity};
ghost use Rattle.cell_walk.specs.Marks.{IsMarked};

use map_kind::Dart;
use std::alloc::{AllocError, Global};
use std::collections::BTreeSet;

/// How many darts a walk may find before it keeps a set.
const FEW: usize = 16;

/// What tells which darts were found, beside the list of these darts.
pub(crate) trait Seen: Drop {
    /// It tells just the darts of the list.
    ghost tells: { Self → List ℕ → Type 0 };

    /// Whether a dart was found.
    fn contains(&self, found: &[Dart], dart: Dart) -> bool
        requires { tells self.now found.now }
        ensures { IsTrue result ↔ Contains found.now dart };

    /// Puts a dart behind the list, and tells it from now on.
    fn put(&mut self, found: &mut Vec<Dart>, dart: Dart) -> Result<(), AllocError>
        requires { tells self.old found.old.items }
        ensures put { OnOk result (found.new.items ≡ found.old.items ++ dart ∷ []) }
        ensures kept { OnErr result (found.new.items ≡ found.old.items) }
        ensures told { tells self.new found.new.items };
}

/// For a walk that costs what it finds, whatever the size of the map: the first few darts of the list are quickly looked
/// through, and the others stand in a set.
#[derive(Drop)]
pub(crate) struct Few {
    more: BTreeSet<Dart>,
}

impl Few {
    /// No dart found yet. It takes no memory.
    pub(crate) fn new(alloc: Global) -> Self
        ensures { (d : ℕ) → Contains result.more.keys d ↔ Contains [] d }
    {
        Few {
            more: BTreeSet::new(alloc),
        }
    }
}

impl Seen for Few {
    ghost tells = { λ seen found. (d : ℕ) → Contains seen.more.keys d ↔ Contains (drop 16 found) d };

    fn contains(&self, found: &[Dart], dart: Dart) -> bool {
        if found.len() <= FEW {
            return found.contains(&dart);
        }
        found[..FEW].contains(&dart) || self.more.contains(&dart)
    }

    fn put(&mut self, found: &mut Vec<Dart>, dart: Dart) -> Result<(), AllocError> {
        make_room(found)?;
        if found.len() >= FEW {
            self.more.insert(dart)?;
        }
        found.push_reserved(dart);
        Ok(())
    }
}

/// Makes room for one more dart, and for a few at first.
fn make_room(darts: &mut Vec<Dart>) -> Result<(), AllocError>
    ensures items { darts.new.items ≡ darts.old.items }
    ensures room { OnOk result (vec_len darts.new + 1 ≤ vec_capacity darts.new) }
{
    if darts.len() < darts.capacity() {
        return Ok(());
    }
    let more = if darts.is_empty() { FEW } else { 1 };
    darts.reserve(more)
}

/// For walks over the whole map: a mark at the place of each dart's number. All memory is taken when they begin, so that a
/// dart is put quickly: a dart beyond those of the map, or one too many, would be refused as if there were no memory.
#[derive(Drop)]
pub(crate) struct Marks {
    marks: Vec<bool>,
}

impl Marks {
    /// No dart found yet in a map whose darts are numbered up to `made`.
    pub(crate) fn new(alloc: Global, made: u32) -> Result<Self, AllocError>
        ensures { IfOk result (λ seen. (d : ℕ) → IsMarked seen.marks.items d ↔ Contains [] d) }
    {
        let mut marks = Vec::new(alloc);
        marks.resize(made as usize + 1, false)?;
        Ok(Marks { marks })
    }
}

impl Seen for Marks {
    ghost tells = { λ seen found. (d : ℕ) → IsMarked seen.marks.items d ↔ Contains found d };

    #[inline(always)]
    fn contains(&self, _found: &[Dart], dart: Dart) -> bool {
        let place = dart.number() as usize;
        place < self.marks.len() && self.marks[place]
    }

    #[inline(always)]
    fn put(&mut self, found: &mut Vec<Dart>, dart: Dart) -> Result<(), AllocError> {
        let place = dart.number() as usize;
        if place >= self.marks.len() || found.len() >= found.capacity() {
            return Err(AllocError);
        }
        found.push_reserved(dart);
        self.marks[place] = true;
        Ok(())
    }
}
