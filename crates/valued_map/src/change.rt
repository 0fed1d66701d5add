//! How an edit of the links is made, and the values with it.
ghost use Rattle.std.specs.Prelude.{◌≡◌, ℕ, ◌+◌, ◌-◌, ◌≤◌, ◌++◌, ◌<◌, List, Some, IsSome, map, length, OnOk, OnErr, IfOk, IsTrue, [], Bool, Option};
ghost use Rattle.map_defs.specs.Rows.{Rows, IsLive, links_of, made, live_count};
ghost use Rattle.map_defs.specs.Laws.{Laws};
ghost use Rattle.map_defs.specs.Edits.{Fits, after_edit, IsLed};
ghost use Rattle.machine_defs.specs.Difference.{Difference};
ghost use Rattle.machine_defs.specs.State.{with_born, without_dart};
ghost use Rattle.store_defs.specs.Labelings.{id_of, KeepsIds, KeepsPlaces};
ghost use Rattle.store_defs.specs.Groups.{group_at, rule_at, HasCarriedValue};
ghost use Rattle.label_laws.specs.Maps.{IsStoredMap};
ghost use Rattle.label_laws.specs.Contents.{IsCarriedOn};
ghost use Rattle.label_laws.specs.Stored.{AreSmall};
ghost use Rattle.label_laws.specs.Touching.{AreGrafted, AreAllTouched};
ghost use Rattle.valued_map.specs.Keeping.{KeepsThose};
ghost use Rattle.valued_map.specs.Told.{AreOldValues, IsBegun, IsRevaluedPlace, IsStep, finished};

use crate::carrying::carried;
use crate::ids::{end_ids, relabel};
use crate::kept::Kept;
use crate::map::ValuedMap;
use crate::told::{begin_step, finish_step, new_values, old_values, renewed};
use attr_pool::{Labels, Pool};
use attr_rules::Hook;
use link_rows::{BornRows, Edit, Links, MADE_MAX};
use map_kind::{Dart, Kind};
use std::alloc::{AllocError, Global};
use transport::{Group, RuleRow};
use undo_journal::{Step, ValueChange};

/// The labels are lengthened to whole blocks of so many darts, so that few of the edits that bear darts lengthen them.
const BLOCK: u32 = 256;

impl<K: Kind, const DIM: usize> ValuedMap<K, DIM> {
    /// Makes an edit that only adds darts, linked among each other alone. They have no values, and no value changes. The
    /// step is answered where it is asked for. All memory is taken before anything changes.
    pub fn bear(
        &mut self,
        alloc: Global,
        edit: &Edit,
        asked: bool,
    ) -> Result<Option<Step>, AllocError>
        requires fits { Fits K.kind DIM self.old.content.rows edit.now }
        requires laws { Laws K.kind (links_of (after_edit DIM edit.now self.old.content.rows)) }
        requires few { made self.old.content.rows + edit.now.births ≤ MADE_MAX }
        requires born { (born : List (List ℕ)) × (after_edit DIM edit.now self.old.content.rows ≡ self.old.content.rows ++ map Some born) }
        ensures made { (born : List (List ℕ)) → after_edit DIM edit.now self.old.content.rows ≡ self.old.content.rows ++ map Some born
            → OnOk result (self.new.content ≡ with_born self.old.content born) }
        ensures step { IfOk result (λ step. IsStep asked self.old.content self.new.content step) }
        ensures err { OnErr result (self.new.content ≡ self.old.content) }
        ensures places_stay { self.old.places ≤ self.new.places }
        ensures room { OnOk result (live_count self.old.content.rows + (made self.new.content.rows - made self.old.content.rows) ≤ self.new.places) }
    {
        if !asked {
            self.put_born(edit)?;
            return Ok(None);
        }
        let draft = begin_step(alloc, self.links.made(), edit, asked)?;
        self.put_born(edit)?;
        Ok(finish_step(draft, Vec::new(alloc), Vec::new(alloc)))
    }

    /// Makes an edit that only adds darts, linked among each other alone. All memory is taken before anything changes.
    fn put_born(&mut self, edit: &Edit) -> Result<(), AllocError>
        requires fits { Fits K.kind DIM self.old.content.rows edit.now }
        requires laws { Laws K.kind (links_of (after_edit DIM edit.now self.old.content.rows)) }
        requires few { made self.old.content.rows + edit.now.births ≤ MADE_MAX }
        requires born { (born : List (List ℕ)) × (after_edit DIM edit.now self.old.content.rows ≡ self.old.content.rows ++ map Some born) }
        ensures made { (born : List (List ℕ)) → after_edit DIM edit.now self.old.content.rows ≡ self.old.content.rows ++ map Some born
            → OnOk result (self.new.content ≡ with_born self.old.content born) }
        ensures told { OnOk result ((asked : Bool) (draft : Option Difference) → IsBegun asked (made self.old.content.rows) edit.now draft
            → IsStep asked self.old.content self.new.content (finished draft [] [])) }
        ensures err { OnErr result (self.new.content ≡ self.old.content) }
        ensures places_stay { self.old.places ≤ self.new.places }
        ensures room { OnOk result (live_count self.old.content.rows + (made self.new.content.rows - made self.old.content.rows) ≤ self.new.places) }
    {
        let made = self.links.made();
        if self.links.reserve(edit.births).is_err() {
            return Err(AllocError);
        }
        make_places(&mut self.labels, made, edit.births)?;
        self.links.apply(edit);
        Ok(())
    }

    /// Makes an edit, which keeps the cells of some dimensions, and carries the values to the new cells. The step is answered
    /// where it is asked for. Where memory is wanting, the edit is taken back.
    pub fn relink<H: Hook>(
        &mut self,
        alloc: Global,
        hook: &H,
        edit: &Edit,
        kept: Kept,
        asked: bool,
    ) -> Result<Option<Step>, AllocError>
        requires ready { H.ready hook.now }
        requires fits { Fits K.kind DIM self.old.content.rows edit.now }
        requires laws { Laws K.kind (links_of (after_edit DIM edit.now self.old.content.rows)) }
        requires few { made self.old.content.rows + edit.now.births ≤ MADE_MAX }
        requires kept { KeepsThose K.kind kept self.old.content.rows (after_edit DIM edit.now self.old.content.rows) }
        ensures carried { OnOk result (IsCarriedOn (H.hook hook.now) self.old.content (after_edit DIM edit.now self.old.content.rows) self.new.content) }
        ensures step { IfOk result (λ step. IsStep asked self.old.content self.new.content step) }
        ensures err { OnErr result (self.new.content ≡ self.old.content) }
        ensures places_stay { self.old.places ≤ self.new.places }
        ensures room { OnOk result (live_count self.old.content.rows + (made self.new.content.rows - made self.old.content.rows) ≤ self.new.places) }
    {
        if !asked {
            self.put_links(alloc, hook, edit, kept, asked)?;
            return Ok(None);
        }
        let draft = begin_step(alloc, self.links.made(), edit, asked)?;
        let values = self.put_links(alloc, hook, edit, kept, asked)?;
        Ok(finish_step(draft, values, Vec::new(alloc)))
    }

    /// Makes an edit, which keeps the cells of some dimensions, and carries the values to the new cells. It answers the values
    /// that are others then, where they are asked for. Where memory is wanting, the edit is taken back.
    fn put_links<H: Hook>(
        &mut self,
        alloc: Global,
        hook: &H,
        edit: &Edit,
        kept: Kept,
        asked: bool,
    ) -> Result<Vec<ValueChange>, AllocError>
        requires ready { H.ready hook.now }
        requires fits { Fits K.kind DIM self.old.content.rows edit.now }
        requires laws { Laws K.kind (links_of (after_edit DIM edit.now self.old.content.rows)) }
        requires few { made self.old.content.rows + edit.now.births ≤ MADE_MAX }
        requires kept { KeepsThose K.kind kept self.old.content.rows (after_edit DIM edit.now self.old.content.rows) }
        ensures carried { OnOk result (IsCarriedOn (H.hook hook.now) self.old.content (after_edit DIM edit.now self.old.content.rows) self.new.content) }
        ensures told { IfOk result (λ values. (draft : Option Difference) → IsBegun asked (made self.old.content.rows) edit.now draft
            → IsStep asked self.old.content self.new.content (finished draft values.items [])) }
        ensures err { OnErr result (self.new.content ≡ self.old.content) }
        ensures places_stay { self.old.places ≤ self.new.places }
        ensures room { OnOk result (live_count self.old.content.rows + (made self.new.content.rows - made self.old.content.rows) ≤ self.new.places) }
    {
        let made = self.links.made();
        if self.links.reserve(edit.births).is_err() {
            return Err(AllocError);
        }
        make_places(&mut self.labels, made, edit.births)?;
        self.links.apply(edit);
        match moved(
            alloc,
            &self.links,
            &mut self.labels,
            &mut self.pool,
            &self.rules,
            hook,
            edit,
            kept,
            asked,
        ) {
            Ok((groups, olds)) => {
                relabel(&mut self.labels, &mut self.pool, &edit.deaths, &groups);
                Ok(new_values(&self.labels, &self.pool, olds))
            }
            Err(error) => {
                self.links.reverse(edit);
                self.labels.cut(made);
                Err(error)
            }
        }
    }

    /// Ends a dart without links, and the values of its cells with it. The step is answered where it is asked for.
    pub fn bury(
        &mut self,
        alloc: Global,
        dart: Dart,
        asked: bool,
    ) -> Result<Option<Step>, AllocError>
        requires live { IsLive self.old.content.rows dart }
        requires alone { (i : ℕ) → links_of self.old.content.rows i dart ≡ 0 }
        ensures buried { OnOk result (self.new.content ≡ without_dart self.old.content dart) }
        ensures step { IfOk result (λ step. IsStep asked self.old.content self.new.content step) }
        ensures err { OnErr result (self.new.content ≡ self.old.content) }
        ensures places_stay { self.old.places ≤ self.new.places }
        ensures room { OnOk result (live_count self.old.content.rows + (made self.new.content.rows - made self.old.content.rows) ≤ self.new.places) }
    {
        let edit = Edit {
            births: 0,
            deaths: vec![in alloc; dart]?,
            changes: Vec::new(alloc),
            born: BornRows::none(alloc),
        };
        let made = self.links.made();
        let draft = begin_step(alloc, made, &edit, asked)?;
        let olds = if asked {
            old_values(alloc, &self.labels, &self.pool, made, &edit.deaths, &[])?
        } else {
            Vec::new(alloc)
        };
        self.links.apply(&edit);
        end_ids(&mut self.labels, &mut self.pool, &edit.deaths);
        let values = new_values(&self.labels, &self.pool, olds);
        Ok(finish_step(draft, values, Vec::new(alloc)))
    }
}

/// Makes places in the labels for so many births behind the darts up to `made`, to the end of a block. Where there are, it
/// costs nothing.
fn make_places<const DIM: usize>(
    labels: &mut Labels<DIM>,
    made: u32,
    births: u32,
) -> Result<(), AllocError>
    requires long { made ≤ labels.old.made }
    requires few { made + births ≤ MADE_MAX }
    ensures long { OnOk result (made + births ≤ labels.new.made) }
    ensures longer { labels.old.made ≤ labels.new.made }
    ensures ids { KeepsIds labels.old labels.new }
    ensures places { KeepsPlaces labels.old labels.new }
{
    if births == 0 {
        return Ok(());
    }
    labels.grow((made + births).next_multiple_of(BLOCK))
}

/// The cells that the edit may have changed, with the values that are carried to them, and room in the pool for these values;
/// and where it is asked for, the values that change with them, as they were. Darts that were born are given the ids of cells
/// that they joined.
fn moved<K: Kind, H: Hook, const DIM: usize>(
    alloc: Global,
    links: &Links<K, DIM>,
    labels: &mut Labels<DIM>,
    pool: &mut Pool,
    rules: &RuleRow,
    hook: &H,
    edit: &Edit,
    kept: Kept,
    asked: bool,
) -> Result<(Vec<Group>, Vec<ValueChange>), AllocError>
    requires ready { H.ready hook.now }
    requires led { (old : Rows) × IsLed K.kind DIM edit.now old links.now.rows
        × IsStoredMap K.kind DIM old labels.old pool.old rules.now × KeepsThose K.kind kept old links.now.rows }
    requires long { made links.now.rows ≤ labels.old.made }
    requires laws { Laws K.kind (links_of links.now.rows) }
    ensures grafted { (old : Rows) → IsLed K.kind DIM edit.now old links.now.rows
        → AreGrafted K.kind links.now.rows (made old) (λ i. IsSome (rule_at rules.now i)) labels.old labels.new }
    ensures cells { IfOk result (λ moved. (old : Rows) → IsLed K.kind DIM edit.now old links.now.rows
        → IsStoredMap K.kind DIM old labels.old pool.old rules.now → KeepsThose K.kind kept old links.now.rows
        → AreAllTouched K.kind links.now.rows rules.now labels.new moved.0.items) }
    ensures values { IfOk result (λ moved. (n : ℕ) → n < length moved.0.items
        → HasCarriedValue K.kind (links_of links.now.rows) (IsLive links.now.rows) (id_of labels.new) pool.old
        (H.hook hook.now) rules.now (group_at moved.0.items n)) }
    ensures room { IfOk result (λ moved. length moved.0.items ≤ pool.new.spare) }
    ensures slots { pool.new.slots ≡ pool.old.slots }
    ensures small { OnOk result (AreSmall rules.now pool.old) }
    ensures olds { IfOk result (λ moved. IsTrue asked → (old : Rows) → IsLed K.kind DIM edit.now old links.now.rows
        → IsStoredMap K.kind DIM old labels.old pool.old rules.now
        → AreOldValues (IsRevaluedPlace DIM (made old) edit.now moved.0.items) labels.old pool.new moved.1.items) }
{
    let groups = carried(alloc, links, labels, pool, rules, hook, edit, kept)?;
    if !asked {
        return Ok((groups, Vec::new(alloc)));
    }
    let older = links.made() - edit.births;
    let renewed = renewed(alloc, edit, older)?;
    let olds = old_values(alloc, labels, pool, older, &renewed, &groups)?;
    Ok((groups, olds))
}
