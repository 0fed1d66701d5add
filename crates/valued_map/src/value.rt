//! The value of one cell.
ghost use Rattle.std.specs.Prelude.{◌≡◌, ◌+◌, ◌-◌, ◌≤◌, Some, None, IsSome, IfOk, OnOk, OnErr};
ghost use Rattle.map_defs.specs.Rows.{IsLive, made, live_count};
ghost use Rattle.machine_defs.specs.State.{rule_at};
ghost use Rattle.machine_defs.specs.Kept.{IsLawfulContent};
ghost use Rattle.machine_defs.specs.Valuing.{IsValued};
ghost use Rattle.valued_map.specs.Told.{IsStep};

use crate::carrying::make_room;
use crate::ids::{give_id, take_ids};
use crate::map::ValuedMap;
use crate::told::{begin_step, cell_values, finish_step, new_values, no_edit};
use cell_walk::cell;
use map_kind::{Dart, Kind, Value};
use std::alloc::{AllocError, Global};
use undo_journal::Step;

impl<K: Kind, const DIM: usize> ValuedMap<K, DIM> {
    /// Gives the cell of a live dart a value in place of the one that it had, or takes its value away. The step is answered
    /// where it is asked for. Where it is not, it takes no memory to give a value to a cell that has one, nor to take the
    /// value of a cell that has none.
    pub fn set_value(
        &mut self,
        alloc: Global,
        dim: usize,
        dart: Dart,
        value: Option<Value>,
        asked: bool,
    ) -> Result<Option<Step>, AllocError>
        requires dim { dim ≤ DIM }
        requires live { IsLive self.old.content.rows dart }
        requires ruled { IsSome (rule_at self.old.content dim) }
        ensures valued { OnOk result (IsValued self.old.content dim dart value self.new.content) }
        ensures step { IfOk result (λ step. IsStep asked self.old.content self.new.content step) }
        ensures err { OnErr result (self.new.content ≡ self.old.content) }
        ensures places_stay { self.old.places ≤ self.new.places }
        ensures room { OnOk result (live_count self.old.content.rows + (made self.new.content.rows - made self.old.content.rows) ≤ self.new.places) }
    {
        let made = self.links.made();
        if !asked {
            self.put_value(alloc, dim, dart, value)?;
            self.see_lawful();
            return Ok(None);
        }
        let draft = begin_step(alloc, made, &no_edit(alloc), asked)?;
        let olds = cell_values(alloc, &self.links, &self.labels, &self.pool, dim, dart)?;
        self.put_value(alloc, dim, dart, value)?;
        let values = new_values(&self.labels, &self.pool, olds);
        Ok(finish_step(draft, values, Vec::new(alloc)))
    }

    /// The content is lawful: so it is in every map.
    fn see_lawful(&self)
        ensures { IsLawfulContent self.now.content }
    {
        let _ = self.links();
    }

    /// Lets the darts of the cell of a live dart have an id for this value, or none. All memory is taken before anything
    /// changes.
    fn put_value(
        &mut self,
        alloc: Global,
        dim: usize,
        dart: Dart,
        value: Option<Value>,
    ) -> Result<(), AllocError>
        requires dim { dim ≤ DIM }
        requires live { IsLive self.old.content.rows dart }
        requires ruled { IsSome (rule_at self.old.content dim) }
        ensures valued { OnOk result (IsValued self.old.content dim dart value self.new.content) }
        ensures err { OnErr result (self.new.content ≡ self.old.content) }
        ensures rows { self.new.content.rows ≡ self.old.content.rows }
        ensures places { self.new.places ≡ self.old.places }
    {
        match value {
            Some(value) => self.give_value(alloc, dim, dart, value),
            None => self.drop_value(alloc, dim, dart),
        }
    }

    /// Lets the darts of the cell of a live dart have an id for this value. Where the cell has an id, it takes no memory.
    fn give_value(
        &mut self,
        alloc: Global,
        dim: usize,
        dart: Dart,
        value: Value,
    ) -> Result<(), AllocError>
        requires dim { dim ≤ DIM }
        requires live { IsLive self.old.content.rows dart }
        requires ruled { IsSome (rule_at self.old.content dim) }
        ensures valued { OnOk result (IsValued self.old.content dim dart (Some value) self.new.content) }
        ensures err { OnErr result (self.new.content ≡ self.old.content) }
        ensures rows { self.new.content.rows ≡ self.old.content.rows }
        ensures places { self.new.places ≡ self.old.places }
    {
        if let Some(id) = self.labels.id(dim, dart) {
            self.pool.replace(id, value);
            return Ok(());
        }
        let darts = cell(alloc, &self.links, dim, dart)?;
        make_room(&mut self.pool, 1)?;
        give_id(&mut self.labels, &mut self.pool, dim, &darts, value);
        Ok(())
    }

    /// Takes the ids of the darts of the cell of a live dart away, if they have some.
    fn drop_value(&mut self, alloc: Global, dim: usize, dart: Dart) -> Result<(), AllocError>
        requires dim { dim ≤ DIM }
        requires live { IsLive self.old.content.rows dart }
        ensures valued { OnOk result (IsValued self.old.content dim dart None self.new.content) }
        ensures err { OnErr result (self.new.content ≡ self.old.content) }
        ensures rows { self.new.content.rows ≡ self.old.content.rows }
        ensures places { self.new.places ≡ self.old.places }
    {
        if self.labels.id(dim, dart).is_none() {
            return Ok(());
        }
        let darts = cell(alloc, &self.links, dim, dart)?;
        take_ids(&mut self.labels, &mut self.pool, dim, &darts);
        Ok(())
    }
}
