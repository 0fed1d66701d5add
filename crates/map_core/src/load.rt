//! A map that is made at once, from a mesh.
ghost use Rattle.std.specs.Prelude.{◌≡◌, ℕ, ◌≤◌, ◌↔◌, [], ◌∷◌, None, map, min, Contains, IfOk, OnOk, OnErr};
ghost use Rattle.std.specs.List.Sorted.{IsStrictlyIncreasing};
ghost use Rattle.map_defs.specs.Rows.{IsLive, links_of, made};
ghost use Rattle.map_defs.specs.Cells.{NamesCell};
ghost use Rattle.map_defs.specs.Edits.{Fits, after_edit};
ghost use Rattle.map_defs.specs.Laws.{Laws};
ghost use Rattle.machine_defs.specs.State.{Content, empty_state};
ghost use Rattle.machine_defs.specs.Loading.{first_state};
ghost use Rattle.cell_walk.specs.CellLists.{AreCellsOf};
ghost use Rattle.valued_map.specs.Made.{IsMadeOf};

use crate::map::Map;
use attr_rules::Hook;
use cell_walk::cells_of;
use flat_lists::Lists;
use link_rows::{Links, MADE_MAX, PlainEdit};
use map_kind::{Dart, Done, Kind, Place};
use std::alloc::{AllocError, Global};
use undo_journal::Journal;

impl<'h, K: Kind, H: Hook, const DIM: usize> Map<'h, K, H, DIM> {
    /// Makes a map from nothing by an edit, gives dimension 0 the rule `first copy` and each 0-cell its value: `places` has
    /// the least dart of each, ascending. The answer tells the darts that were made. It is no step of the machine: with the
    /// map of a mesh it gives the state that a script starts from. It costs the size of the edit times a logarithm.
    pub fn load(
        &mut self,
        alloc: Global,
        edit: &PlainEdit,
        places: &[Place],
    ) -> Result<Done, AllocError>
        requires new { self.old.state ≡ empty_state K.kind DIM }
        requires fits { Fits K.kind DIM (None ∷ []) edit.now }
        requires few { edit.now.births ≤ MADE_MAX }
        requires laws { Laws K.kind (links_of (after_edit DIM edit.now (None ∷ []))) }
        requires members { (d : ℕ) → Contains (map (λ place. place.dart) places.now) d
            ↔ (IsLive (after_edit DIM edit.now (None ∷ [])) d × NamesCell K.kind (links_of (after_edit DIM edit.now (None ∷ []))) 0 d) }
        requires ascending { IsStrictlyIncreasing (map (λ place. place.dart) places.now) }
        ensures hook { self.new.hook ≡ self.old.hook }
        ensures first { IfOk result (λ done. done.first ≡ min edit.now.births 1) }
        ensures count { IfOk result (λ done. done.count ≡ edit.now.births) }
        ensures loaded { OnOk result ((content : Content) × IsMadeOf K.kind DIM (after_edit DIM edit.now (None ∷ [])) places.now content
            × (self.new.state ≡ first_state content)) }
        ensures err { OnErr result (self.new ≡ self.old) }
    {
        self.see_dimension();
        let links = links_after::<K, DIM>(alloc, edit)?;
        let darts = darts_of(alloc, places)?;
        let cells = cells_of(alloc, &links, 0, &darts)?;
        self.load_links(alloc, links, places, &cells)
    }

    /// The same of links that were built: `places` has the least dart of each 0-cell, ascending, with its value, and `cells`
    /// the darts of each, in the same order. It costs the number of darts.
    pub fn load_links(
        &mut self,
        alloc: Global,
        links: Links<K, DIM>,
        places: &[Place],
        cells: &Lists<Dart>,
    ) -> Result<Done, AllocError>
        requires new { self.old.state ≡ empty_state K.kind DIM }
        requires laws { Laws K.kind (links_of links.rows) }
        requires members { (d : ℕ) → Contains (map (λ place. place.dart) places.now) d
            ↔ (IsLive links.rows d × NamesCell K.kind (links_of links.rows) 0 d) }
        requires ascending { IsStrictlyIncreasing (map (λ place. place.dart) places.now) }
        requires cells { AreCellsOf K.kind (links_of links.rows) 0 (map (λ place. place.dart) places.now) cells.now }
        ensures hook { self.new.hook ≡ self.old.hook }
        ensures first { IfOk result (λ done. done.first ≡ min (made links.rows) 1) }
        ensures count { IfOk result (λ done. done.count ≡ made links.rows) }
        ensures loaded { OnOk result ((content : Content) × IsMadeOf K.kind DIM links.rows places.now content
            × (self.new.state ≡ first_state content)) }
        ensures err { OnErr result (self.new ≡ self.old) }
    {
        let made = links.made();
        self.present.load_links(alloc, links, places, cells)?;
        self.journal = Journal::new(alloc);
        Ok(Done {
            first: made.min(1),
            count: made,
        })
    }
}

/// The links that an edit makes from nothing.
fn links_after<K: Kind, const DIM: usize>(
    alloc: Global,
    edit: &PlainEdit,
) -> Result<Links<K, DIM>, AllocError>
    requires low { 2 ≤ DIM }
    requires high { DIM ≤ 8 }
    requires fits { Fits K.kind DIM (None ∷ []) edit.now }
    requires few { edit.now.births ≤ MADE_MAX }
    ensures { IfOk result (λ links. links.rows ≡ after_edit DIM edit.now (None ∷ [])) }
{
    let mut links = Links::new(alloc);
    if links.reserve(edit.births).is_err() {
        return Err(AllocError);
    }
    links.apply_plain(edit);
    Ok(links)
}

/// The darts of places.
fn darts_of(alloc: Global, places: &[Place]) -> Result<Vec<Dart>, AllocError>
    ensures { IfOk result (λ darts. darts.items ≡ map (λ place. place.dart) places.now) }
{
    places.iter().map(|place| place.dart).collect(alloc)
}
