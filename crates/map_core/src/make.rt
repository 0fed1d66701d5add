//! How an edit of the links is made, and the step noted.
ghost use Rattle.std.specs.Prelude.{◌≡◌, ℕ, ◌+◌, ◌≤◌, ◌++◌, List, Some, map, OnOk, OnErr};
ghost use Rattle.map_defs.specs.Rows.{IsLive, links_of, made};
ghost use Rattle.map_defs.specs.Laws.{Laws};
ghost use Rattle.map_defs.specs.Edits.{Fits, after_edit};
ghost use Rattle.machine_defs.specs.State.{Content, with_born, without_dart, steps_to};
ghost use Rattle.label_laws.specs.Contents.{IsCarriedOn};
ghost use Rattle.valued_map.specs.Keeping.{KeepsThose};

use crate::map::Map;
use crate::note::{begin, finish};
use attr_rules::Hook;
use link_rows::{Edit, MADE_MAX};
use map_kind::{Dart, Kind};
use std::alloc::{AllocError, Global};
use valued_map::Kept;

impl<'h, K: Kind, H: Hook, const DIM: usize> Map<'h, K, H, DIM> {
    /// Makes an edit that only adds darts, linked among each other alone. They have no values, and no value changes. All
    /// memory is taken before anything changes.
    pub(crate) fn bear(&mut self, alloc: Global, edit: &Edit) -> Result<(), AllocError>
        requires fits { Fits K.kind DIM self.old.state.present.rows edit.now }
        requires laws { Laws K.kind (links_of (after_edit DIM edit.now self.old.state.present.rows)) }
        requires few { made self.old.state.present.rows + edit.now.births ≤ MADE_MAX }
        requires born { (born : List (List ℕ)) × (after_edit DIM edit.now self.old.state.present.rows
            ≡ self.old.state.present.rows ++ map Some born) }
        ensures hook { self.new.hook ≡ self.old.hook }
        ensures made { (born : List (List ℕ)) → after_edit DIM edit.now self.old.state.present.rows
            ≡ self.old.state.present.rows ++ map Some born
            → OnOk result (self.new.state ≡ steps_to self.old.state (with_born self.old.state.present born)) }
        ensures err { OnErr result (self.new ≡ self.old) }
    {
        let noting = begin(&mut self.journal)?;
        let step = self.present.bear(alloc, edit, noting)?;
        finish(&mut self.journal, step);
        Ok(())
    }

    /// Makes an edit, which keeps the cells of some dimensions, and carries the values to the new cells. Where memory is wanting,
    /// the edit is taken back.
    pub(crate) fn relink(
        &mut self,
        alloc: Global,
        edit: &Edit,
        kept: Kept,
    ) -> Result<(), AllocError>
        requires ready { H.ready self.old.hook }
        requires fits { Fits K.kind DIM self.old.state.present.rows edit.now }
        requires laws { Laws K.kind (links_of (after_edit DIM edit.now self.old.state.present.rows)) }
        requires few { made self.old.state.present.rows + edit.now.births ≤ MADE_MAX }
        requires kept { KeepsThose K.kind kept self.old.state.present.rows (after_edit DIM edit.now self.old.state.present.rows) }
        ensures hook { self.new.hook ≡ self.old.hook }
        ensures made { OnOk result ((next : Content) × IsCarriedOn (H.hook self.old.hook) self.old.state.present
            (after_edit DIM edit.now self.old.state.present.rows) next × (self.new.state ≡ steps_to self.old.state next)) }
        ensures err { OnErr result (self.new ≡ self.old) }
    {
        let noting = begin(&mut self.journal)?;
        let step = self.present.relink(alloc, self.hook, edit, kept, noting)?;
        finish(&mut self.journal, step);
        Ok(())
    }

    /// Ends a dart without links, and the values of its cells with it.
    pub(crate) fn end(&mut self, alloc: Global, dart: Dart) -> Result<(), AllocError>
        requires live { IsLive self.old.state.present.rows dart }
        requires alone { (i : ℕ) → links_of self.old.state.present.rows i dart ≡ 0 }
        ensures hook { self.new.hook ≡ self.old.hook }
        ensures ended { OnOk result (self.new.state ≡ steps_to self.old.state (without_dart self.old.state.present dart)) }
        ensures err { OnErr result (self.new ≡ self.old) }
    {
        let noting = begin(&mut self.journal)?;
        let step = self.present.bury(alloc, dart, noting)?;
        finish(&mut self.journal, step);
        Ok(())
    }
}
