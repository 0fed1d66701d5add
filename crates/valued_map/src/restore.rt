//! Steps taken back and put forward, on the parts of a map. Nothing is known here of a journal.
ghost use Rattle.std.specs.Prelude.{◌≡◌, ℕ, ◌+◌, ◌≤◌, ◌<◌, ◌⊎◌, [], length, Contains, IfOk, OnOk, OnErr};
ghost use Rattle.map_defs.specs.Rows.{Rows, made, live_count};
ghost use Rattle.machine_defs.specs.Difference.{Difference, RuleChange as ChangedRule};
ghost use Rattle.store_defs.specs.Labelings.{KeepsIds, KeepsPlaces};
ghost use Rattle.label_laws.specs.Changing.{AreTaken};
ghost use Rattle.label_laws.specs.Contents.{content_of, all_rules};
ghost use Rattle.label_laws.specs.Maps.{IsStoredMap};
ghost use Rattle.journal_laws.specs.Following.{all_put_forward, all_taken_back};
ghost use Rattle.valued_map.specs.Undoing.{AreStepsTo, AreStepsFrom, AreEditsTo, HasRoomFor, births_of, rows_before, IsValueChanged, IsRevalued};
ghost use Rattle.valued_map.specs.Ways.{in_turn, with_rules, rules_along, all_along, AreStepsAlong, AreEditsAlong, later_end};

use crate::ids::{relabel, take_id};
use crate::map::ValuedMap;
use crate::restored_cells::cells_along;
use crate::rules::make_places;
use crate::way::Way;
use attr_pool::{Labels, Pool};
use link_rows::{Links, MADE_MAX};
use map_kind::Kind;
use std::alloc::{AllocError, Global};
use transport::RuleRow;
use undo_journal::{RuleChange, Step, ValueChange};

impl<K: Kind, const DIM: usize> ValuedMap<K, DIM> {
    /// Takes steps back that led to the map, the last first. All memory is taken before a value changes. It costs the cells
    /// that the steps touched times a logarithm, whatever the size of the map.
    pub fn take_back(&mut self, alloc: Global, steps: &[Step]) -> Result<(), AllocError>
        requires steps { AreStepsTo self.old.content steps.now }
        requires room { HasRoomFor self.old.content steps.now self.old.places }
        ensures back { OnOk result (self.new.content ≡ all_taken_back steps.now self.old.content) }
        ensures err { OnErr result (self.new.content ≡ self.old.content) }
        ensures places { self.new.places ≡ self.old.places }
    {
        go_along(
            alloc,
            Way::Back,
            &mut self.links,
            &mut self.labels,
            &mut self.pool,
            &mut self.rules,
            steps,
        )
    }

    /// Puts steps forward that lead on from the map, the first first. All memory is taken before a value changes, room for the
    /// darts that the steps bear among it. It costs the cells that the steps touched times a logarithm, whatever the size of
    /// the map; where room for these darts is wanting, it costs the size of the map too.
    pub fn put_forward(&mut self, alloc: Global, steps: &[Step]) -> Result<(), AllocError>
        requires steps { AreStepsFrom self.old.content steps.now }
        ensures forward { OnOk result (self.new.content ≡ all_put_forward steps.now self.old.content) }
        ensures err { OnErr result (self.new.content ≡ self.old.content) }
        ensures places { self.old.places ≤ self.new.places }
    {
        make_births_room(&mut self.links, &mut self.labels, steps)?;
        go_along(
            alloc,
            Way::Forth,
            &mut self.links,
            &mut self.labels,
            &mut self.pool,
            &mut self.rules,
            steps,
        )
    }
}

/// Makes room in the links and the labels for the darts that steps bear.
fn make_births_room<K: Kind, const DIM: usize>(
    links: &mut Links<K, DIM>,
    labels: &mut Labels<DIM>,
    steps: &[Step],
) -> Result<(), AllocError>
    requires { made links.old.rows + births_of steps.now ≤ MADE_MAX }
    ensures rows { links.new.rows ≡ links.old.rows }
    ensures spare { OnOk result (births_of steps.now ≤ links.new.spare) }
    ensures room { OnOk result (births_of steps.now ≤ links.new.room) }
    ensures room_stays { links.old.room ≤ links.new.room }
    ensures long { OnOk result (made links.old.rows + births_of steps.now ≤ labels.new.made) }
    ensures longer { labels.old.made ≤ labels.new.made }
    ensures ids { KeepsIds labels.old labels.new }
    ensures places { KeepsPlaces labels.old labels.new }
{
    let births = births_of(steps);
    if links.reserve(births).is_err() {
        return Err(AllocError);
    }
    labels.grow(links.made() + births)
}

/// How many darts steps bear.
fn births_of(steps: &[Step]) -> u32
    requires { births_of steps.now ≤ MADE_MAX }
    ensures { result ≡ births_of steps.now }
{
    let mut births = 0;
    for step in steps {
        births += step.edit.births;
    }
    births
}

/// Goes a way through steps, so that the parts are those of the map at its end. All memory is taken before an id changes;
/// where it is wanting, the links go the way that leads back again. It costs the cells that the steps touched times a
/// logarithm, whatever the size of the map.
fn go_along<K: Kind, const DIM: usize>(
    alloc: Global,
    way: Way,
    links: &mut Links<K, DIM>,
    labels: &mut Labels<DIM>,
    pool: &mut Pool,
    rules: &mut RuleRow,
    steps: &[Step],
) -> Result<(), AllocError>
    requires stored { IsStoredMap K.kind DIM links.old.rows labels.old pool.old rules.old }
    requires steps { AreStepsAlong way (content_of K.kind DIM links.old.rows labels.old pool.old rules.old) steps.now }
    requires room { HasRoomFor (later_end way steps.now (content_of K.kind DIM links.old.rows labels.old pool.old rules.old)) steps.now
        (live_count links.old.rows + links.old.room) }
    requires spare { made (all_along way steps.now (content_of K.kind DIM links.old.rows labels.old pool.old rules.old)).rows
        ≤ made links.old.rows + links.old.spare }
    requires long { made (all_along way steps.now (content_of K.kind DIM links.old.rows labels.old pool.old rules.old)).rows ≤ labels.old.made }
    ensures stored { IsStoredMap K.kind DIM links.new.rows labels.new pool.new rules.new }
    ensures gone { OnOk result (content_of K.kind DIM links.new.rows labels.new pool.new rules.new
        ≡ all_along way steps.now (content_of K.kind DIM links.old.rows labels.old pool.old rules.old)) }
    ensures room { live_count links.new.rows + links.new.room ≡ live_count links.old.rows + links.old.room }
    ensures spare { made links.new.rows + links.new.spare ≡ made links.old.rows + links.old.spare }
    ensures kept { OnErr result (content_of K.kind DIM links.new.rows labels.new pool.new rules.new
        ≡ content_of K.kind DIM links.old.rows labels.old pool.old rules.old) }
    ensures err { OnErr result (links.new ≡ links.old) }
{
    let after = rules_along(alloc, way, rules, links.dimension(), steps)?;
    links_along(way, links, steps);
    match cells_along(alloc, way, links, labels, pool, &after, steps) {
        Ok(groups) => {
            take_values(labels, pool, steps);
            relabel(labels, pool, &[], &groups);
            rules.rules = after.rules;
            Ok(())
        }
        Err(error) => {
            links_along(way.turned(), links, steps);
            Err(error)
        }
    }
}

/// Takes the links a way through steps. It takes no memory.
fn links_along<K: Kind, const DIM: usize>(way: Way, links: &mut Links<K, DIM>, steps: &[Step])
    requires { (others : Rows) × AreEditsAlong way K.kind DIM steps.now links.old.rows others (live_count links.old.rows + links.old.room)
        × (made others ≤ made links.old.rows + links.old.spare) }
    ensures rows { (others : Rows)
        → AreEditsAlong way K.kind DIM steps.now links.old.rows others (live_count links.old.rows + links.old.room) → links.new.rows ≡ others }
    ensures room { live_count links.new.rows + links.new.room ≡ live_count links.old.rows + links.old.room }
    ensures spare { made links.new.rows + links.new.spare ≡ made links.old.rows + links.old.spare }
{
    match way {
        Way::Back => links_back(links, steps),
        Way::Forth => links_forward(links, steps),
    }
}

/// Takes the links back through steps, the last first. It takes no memory.
fn links_back<K: Kind, const DIM: usize>(links: &mut Links<K, DIM>, steps: &[Step])
    requires { AreEditsTo K.kind DIM links.old.rows steps.now (live_count links.old.rows + links.old.room) }
    ensures rows { links.new.rows ≡ rows_before DIM steps.now links.old.rows }
    ensures room { live_count links.new.rows + links.new.room ≡ live_count links.old.rows + links.old.room }
    ensures spare { made links.new.rows + links.new.spare ≡ made links.old.rows + links.old.spare }
{
    for index in (0..steps.len()).rev() {
        let step = &steps[index];
        links.reverse_plain(&step.edit);
    }
}

/// Puts the links forward through steps, the first first. It takes no memory.
fn links_forward<K: Kind, const DIM: usize>(links: &mut Links<K, DIM>, steps: &[Step])
    requires { (now : Rows) × (links.old.rows ≡ rows_before DIM steps.now now)
        × AreEditsTo K.kind DIM now steps.now (live_count links.old.rows + links.old.room)
        × (made now ≤ made links.old.rows + links.old.spare) }
    ensures rows { (now : Rows) → links.old.rows ≡ rows_before DIM steps.now now
        → AreEditsTo K.kind DIM now steps.now (live_count links.old.rows + links.old.room) → links.new.rows ≡ now }
    ensures room { live_count links.new.rows + links.new.room ≡ live_count links.old.rows + links.old.room }
    ensures spare { made links.new.rows + links.new.spare ≡ made links.old.rows + links.old.spare }
{
    for step in steps {
        links.apply_plain(&step.edit);
    }
}

/// The rules at the end of a way through steps. Memory is taken for them beside the rules of now.
fn rules_along(
    alloc: Global,
    way: Way,
    rules: &RuleRow,
    dimension: usize,
    steps: &[Step],
) -> Result<RuleRow, AllocError>
    requires high { dimension ≤ 8 }
    requires long { (rules.now ≡ []) ⊎ (length rules.now ≡ dimension + 1) }
    requires low { (s : Difference) (c : ChangedRule) → Contains steps.now s → Contains s.rules c → c.dim ≤ dimension }
    ensures long { IfOk result (λ after. (after ≡ []) ⊎ (length after ≡ dimension + 1)) }
    ensures rules { IfOk result (λ after. all_rules dimension after
        ≡ rules_along way (in_turn way steps.now) (all_rules dimension rules.now)) }
{
    let mut after = RuleRow {
        rules: Vec::from_slice(alloc, &rules.rules)?,
    };
    for passed in 0..steps.len() {
        let index = way.place(passed, steps.len());
        let step = &steps[index];
        put_changes(alloc, way, &mut after, dimension, &step.rules)?;
    }
    Ok(after)
}

/// Puts the rule that each change of a step puts in its place, one after another. Where there are no places for rules and a
/// change asks for one, they are made.
fn put_changes(
    alloc: Global,
    way: Way,
    rules: &mut RuleRow,
    dimension: usize,
    changes: &[RuleChange],
) -> Result<(), AllocError>
    requires high { dimension ≤ 8 }
    requires long { (rules.old ≡ []) ⊎ (length rules.old ≡ dimension + 1) }
    requires low { (c : ChangedRule) → Contains changes.now c → c.dim ≤ dimension }
    ensures long { OnOk result ((rules.new ≡ []) ⊎ (length rules.new ≡ dimension + 1)) }
    ensures rules { OnOk result (all_rules dimension rules.new ≡ with_rules way (in_turn way changes.now) (all_rules dimension rules.old)) }
{
    if changes.is_empty() {
        return Ok(());
    }
    make_places(alloc, rules, dimension + 1)?;
    put_rules(way, rules, changes);
    Ok(())
}

/// Puts the rule that each change of a step puts in its place, one after another.
fn put_rules(way: Way, rules: &mut RuleRow, changes: &[RuleChange])
    requires { (c : ChangedRule) → Contains changes.now c → c.dim < length rules.old }
    ensures { rules.new ≡ with_rules way (in_turn way changes.now) rules.old }
{
    for passed in 0..changes.len() {
        let index = way.place(passed, changes.len());
        let change = changes[index];
        rules.rules[change.dim] = way.rule(change);
    }
}

/// Takes the ids of the darts away whose values some step changed.
fn take_values<const DIM: usize>(labels: &mut Labels<DIM>, pool: &mut Pool, steps: &[Step])
    requires low { (i d : ℕ) → IsRevalued steps.now i d → i ≤ DIM }
    requires made { (i d : ℕ) → IsRevalued steps.now i d → d ≤ labels.old.made }
    ensures { AreTaken (IsRevalued steps.now) labels.old labels.new pool.old pool.new }
{
    for step in steps {
        take_changed(labels, pool, &step.values);
    }
}

/// Takes the ids of the darts of changes of values away.
fn take_changed<const DIM: usize>(
    labels: &mut Labels<DIM>,
    pool: &mut Pool,
    changes: &[ValueChange],
)
    requires low { (i d : ℕ) → IsValueChanged changes.now i d → i ≤ DIM }
    requires made { (i d : ℕ) → IsValueChanged changes.now i d → d ≤ labels.old.made }
    ensures { AreTaken (IsValueChanged changes.now) labels.old labels.new pool.old pool.new }
{
    for change in changes {
        take_id(labels, pool, change.dim, change.dart);
    }
}
