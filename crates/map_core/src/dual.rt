//! The dual.
ghost use Rattle.std.specs.Prelude.{◌≡◌};
ghost use Rattle.machine_defs.specs.Script.{Dual};
ghost use Rattle.map_core.specs.Calls.{Does};

use crate::map::Map;
use crate::note::{begin, finish, is_noting};
use attr_rules::Hook;
use dual_map::dual_plan;
use kind_edit::Edits;
use map_kind::{Done, Refused};
use std::alloc::Global;

impl<'h, K: Edits<DIM>, H: Hook, const DIM: usize> Map<'h, K, H, DIM> {
    /// Makes the map its dual: the darts stay, and the cells of dimension `DIM - i` become those of dimension i, with their
    /// values and the rule of their dimension. No value is merged or split. Link i of a dart becomes its link `DIM - i`; in
    /// a combinatorial map link `DIM` stays, and a link between leads along link `DIM` first. Without a mark it takes no
    /// memory. It costs a few steps for each link of the darts that were made.
    ///
    /// Refused as `Boundary` exactly where some link of a live dart is free, or where, in a combinatorial map, the dual would
    /// join a dart to itself.
    pub fn dual(&mut self, alloc: Global) -> Result<Done, Refused>
        ensures hook { self.new.hook ≡ self.old.hook }
        ensures does { Does (H.hook self.old.hook) self.old.state Dual result self.new.state }
    {
        if is_noting(&self.journal) {
            return self.noted_dual(alloc);
        }
        self.present.take_dual(alloc)?;
        Ok(Done::NONE)
    }

    /// The same by an edit, whose step can be noted. All memory is taken before anything changes.
    fn noted_dual(&mut self, alloc: Global) -> Result<Done, Refused>
        ensures hook { self.new.hook ≡ self.old.hook }
        ensures does { Does (H.hook self.old.hook) self.old.state Dual result self.new.state }
    {
        let edit = dual_plan(alloc, self.present.links())?;
        let noting = begin(&mut self.journal)?;
        let step = self.present.dual_by(alloc, &edit, noting)?;
        finish(&mut self.journal, step);
        Ok(Done::NONE)
    }
}
