//! The map itself, and what all its calls share.
ghost use Rattle.std.specs.Prelude.{◌≡◌, ◌+◌, ◌≤◌, ◌↔◌, IfOk, IsTrue};
ghost use Rattle.map_defs.specs.Rows.{IsSound, links_of, made};
ghost use Rattle.map_defs.specs.Laws.{IsLawful, Laws};
ghost use Rattle.machine_defs.specs.State.{empty_state};
ghost use Rattle.machine_defs.specs.Kept.{IsLawfulContent};
ghost use Rattle.map_core.specs.Numbers.{NamesDart, NamesDimension};

use attr_rules::Hook;
use link_rows::{Links, MADE_MAX};
use map_kind::{Dart, Kind, Refusal};
use std::alloc::Global;
use std::marker::Model;
use undo_journal::Journal;
use valued_map::ValuedMap;

/// A map of a kind and a dimension from 2 to 8 with values on its cells, seen as the state of the plain map machine
/// beside the hook that was handed in. Its type keeps the laws of a map: at every moment its links obey them, and the
/// darts of a cell have one value or none; and the hook knows each rule that the map has or may go back or forth to. Of the
/// past, and of what undos took back, it keeps what each step changed, and tells all else from that.
#[derive(Drop)]
pub struct Map<'h, K: Kind, H: Hook, const DIM: usize> {
    pub(crate) present: ValuedMap<K, DIM>,
    pub(crate) hook: &'h H,
    // The steps since the first mark, and the undos that can be taken back. Without a mark no step is noted.
    pub(crate) journal: Journal,
}

impl<'h, K: Kind, H: Hook, const DIM: usize> Model for Map<'h, K, H, DIM> {
    ghost use Rattle.map_core.specs.Views.{MapView};
    ghost use Rattle.map_core.specs.Held.{IsHeld};
    ghost use Rattle.trail_laws.specs.Told.{told};

    ghost Value = { MapView H };

    ghost view = { λ map. record { state = told map.present.content map.journal.trail; hook = map.hook.now } };

    ghost invariant = { λ map. IsHeld (H.hook map.hook.now) map.present map.journal.trail };
}

impl<'h, K: Kind, H: Hook, const DIM: usize> Map<'h, K, H, DIM> {
    /// The map without darts, the machine's first state, beside a hook for the rules. It takes no memory.
    pub fn new(alloc: Global, hook: &'h H) -> Self
        requires low { 2 ≤ DIM }
        requires high { DIM ≤ 8 }
        ensures state { result.state ≡ empty_state K.kind DIM }
        ensures hook { result.hook ≡ hook.now }
    {
        Map {
            present: ValuedMap::new(alloc),
            hook,
            journal: Journal::new(alloc),
        }
    }

    /// The links of the map, to be read. Here can be read what the type keeps: links and back links agree, entries name
    /// live darts alone, the laws of a map hold, and the values are those of cells. What it keeps of the whole state, the
    /// past and the marks too, can be read at `mark_count`.
    pub fn links(&self) -> &Links<K, DIM>
        ensures rows { result.now.rows ≡ self.now.state.present.rows }
        ensures kind { self.now.state.present.kind ≡ K.kind }
        ensures dim { self.now.state.present.dim ≡ DIM }
        ensures sound { IsSound K.kind DIM self.now.state.present.rows }
        ensures lawful { IsLawful K.kind (links_of self.now.state.present.rows) }
        ensures laws { Laws K.kind (links_of result.now.rows) }
        ensures kept { IsLawfulContent self.now.state.present }
    {
        self.present.links()
    }

    /// The dimension is from 2 to 8: so it is in every map.
    pub(crate) fn see_dimension(&self)
        ensures low { 2 ≤ DIM }
        ensures high { DIM ≤ 8 }
    {
        let _ = self.links().dimension();
    }

    /// The live dart of this number. `NoDart` comes exactly where no live dart has it.
    pub(crate) fn live_dart(&self, number: u64) -> Result<Dart, Refusal>
        ensures { NamesDart self.now.state.present.rows number result }
    {
        if number > u64::from(self.links().made()) {
            return Err(Refusal::NoDart);
        }
        let Some(dart) = Dart::new(number as u32) else {
            return Err(Refusal::NoDart);
        };
        if self.links().is_live(dart) {
            Ok(dart)
        } else {
            Err(Refusal::NoDart)
        }
    }

    /// The dimension, or the link, of this number. `BadDim` comes exactly where it is above the map's dimension.
    pub(crate) fn dimension(&self, number: u64) -> Result<usize, Refusal>
        ensures named { NamesDimension self.now.state.present.dim number result }
        ensures high { IfOk result (λ dim. dim ≤ DIM) }
    {
        let high = self.links().dimension();
        if number <= high as u64 {
            Ok(number as usize)
        } else {
            Err(Refusal::BadDim)
        }
    }

    /// Whether so many more darts may be made.
    pub(crate) fn has_numbers(&self, births: u32) -> bool
        requires { births ≤ MADE_MAX }
        ensures { IsTrue result ↔ (made self.now.state.present.rows + births ≤ MADE_MAX) }
    {
        self.links().made() + births <= MADE_MAX
    }
}
