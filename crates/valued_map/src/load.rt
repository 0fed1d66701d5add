//! A map that is made at once.
ghost use Rattle.std.specs.Prelude.{◌≡◌, ◌==◌, ℕ, ◌+◌, ◌≤◌, ◌↔◌, None, cond, length, map, replicate, Contains, OnOk, OnErr};
ghost use Rattle.std.specs.List.Sorted.{IsStrictlyIncreasing};
ghost use Rattle.map_defs.specs.Rows.{IsLive, links_of};
ghost use Rattle.map_defs.specs.Cells.{NamesCell};
ghost use Rattle.map_defs.specs.Laws.{Laws};
ghost use Rattle.machine_defs.specs.State.{empty_content};
ghost use Rattle.cell_walk.specs.CellLists.{AreCellsOf};
ghost use Rattle.store_defs.specs.Labelings.{HasPlaces, KeepsIds};
ghost use Rattle.valued_map.specs.Made.{IsMadeOf};

use crate::carrying::make_room;
use crate::ids::give_cells;
use crate::map::ValuedMap;
use crate::rules::{make_places, put_rule};
use attr_pool::{Labels, Pool};
use attr_rules::{Merge, Split, TableRule};
use flat_lists::Lists;
use link_rows::Links;
use map_kind::{Dart, Kind, Place};
use std::alloc::{AllocError, Global};
use transport::RuleRow;

impl<K: Kind, const DIM: usize> ValuedMap<K, DIM> {
    /// Makes the map without darts one of these links, gives dimension 0 the rule `first copy` and each 0-cell its value:
    /// `places` has the least dart of each, ascending, and `cells` the darts of each, in the same order. It costs the number
    /// of darts.
    pub fn load_links(
        &mut self,
        alloc: Global,
        links: Links<K, DIM>,
        places: &[Place],
        cells: &Lists<Dart>,
    ) -> Result<(), AllocError>
        requires new { self.old.content ≡ empty_content K.kind DIM }
        requires laws { Laws K.kind (links_of links.rows) }
        requires members { (d : ℕ) → Contains (map (λ place. place.dart) places.now) d
            ↔ (IsLive links.rows d × NamesCell K.kind (links_of links.rows) 0 d) }
        requires ascending { IsStrictlyIncreasing (map (λ place. place.dart) places.now) }
        requires cells { AreCellsOf K.kind (links_of links.rows) 0 (map (λ place. place.dart) places.now) cells.now }
        ensures loaded { OnOk result (IsMadeOf K.kind DIM links.rows places.now self.new.content) }
        ensures err { OnErr result (self.new.content ≡ self.old.content) }
        ensures places { OnErr result (self.new.places ≡ self.old.places) }
    {
        let made = links.made();
        prepare::<DIM>(
            alloc,
            &mut self.labels,
            &mut self.pool,
            &mut self.rules,
            made,
            places.len(),
        )?;
        self.links = links;
        give_cells(&mut self.labels, &mut self.pool, places, cells);
        put_rule(&mut self.rules, 0, FIRST_COPY);
        Ok(())
    }
}

/// The rule by which points merge and split.
const FIRST_COPY: TableRule = TableRule {
    merge: Merge::First,
    split: Split::Copied,
};

/// Takes the memory for an id of dimension 0 for each of so many darts, for so many values, and for the rules.
fn prepare<const DIM: usize>(
    alloc: Global,
    labels: &mut Labels<DIM>,
    pool: &mut Pool,
    rules: &mut RuleRow,
    darts: u32,
    values: usize,
) -> Result<(), AllocError>
    requires { DIM ≤ 8 }
    ensures long { OnOk result (darts ≤ labels.new.made) }
    ensures longer { labels.old.made ≤ labels.new.made }
    ensures ids { KeepsIds labels.old labels.new }
    ensures places { OnOk result (HasPlaces labels.new 0) }
    ensures places_stay { (i : ℕ) → HasPlaces labels.old i → HasPlaces labels.new i }
    ensures slots { pool.new.slots ≡ pool.old.slots }
    ensures values { OnOk result (values ≤ pool.new.spare) }
    ensures rules { OnOk result (rules.new ≡ cond (length rules.old == 0) (replicate (DIM + 1) None) rules.old) }
    ensures err { OnErr result (rules.new ≡ rules.old) }
{
    labels.grow(darts)?;
    labels.open(0)?;
    make_room(pool, values)?;
    make_places(alloc, rules, DIM + 1)
}
