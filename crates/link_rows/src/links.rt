ghost use Rattle.std.specs.Prelude.{◌≡◌, ℕ, ◌+◌, ◌-◌, ◌≤◌, ◌<◌, ◌↔◌, [], ◌∷◌, None, length, map, option_map, option_copied, reverse, slice_index, IsNone, IsOk, IsTrue, IfSome, IfNone, OnOk, OnErr, IsErrOf};
ghost use Rattle.map_defs.specs.Kind.{alpha, beta};
ghost use Rattle.map_defs.specs.Rows.{Rows, entry_of, links_of, made, live_count, IsLive, IsSound};
ghost use Rattle.map_defs.specs.Laws.{Laws};
ghost use Rattle.map_defs.specs.Edits.{after_edit, before_edit, Fits, IsLed};
ghost use Rattle.map_defs.specs.Dual.{IsDualable, IsDual};
ghost use Rattle.dart_arena.specs.Stock.{IsNextLive};

use crate::edit::{Edit, PlainEdit};
use crate::{dual, steps};
use dart_arena::{Arena, MADE_MAX, ReserveFault, Row};
use map_kind::{Alpha, Beta, Dart, Kind};
use std::alloc::Global;
use std::marker::{Model, PhantomData};

/// The links of a map of a kind and a dimension from 2 to 8: for each live dart, by its number, a row with the dart at
/// each link. Its type keeps that the inverse link leads back, so that every entry names a live dart. It is seen as the
/// stock of its rows.
#[derive(Drop)]
pub struct Links<K: Kind, const DIM: usize> {
    pub(crate) rows: Arena<DIM>,
    pub(crate) kind: PhantomData<K>,
}

impl<K: Kind, const DIM: usize> Model for Links<K, DIM> {
    ghost use Rattle.std.specs.Prelude.{List, ℕ, length, ◌<◌, ◌≤◌};
    ghost use Rattle.map_defs.specs.Rows.{IsSound};
    ghost use Rattle.dart_arena.specs.Stock.{Stock};

    ghost Value = { Stock (List ℕ) };

    ghost view = { λ links. links.rows };

    ghost invariant = { λ links. (DIM ≤ 8) × (0 < length links.rows.rows) × IsSound K.kind DIM links.rows.rows × (2 ≤ DIM) };
}

impl<K: Kind, const DIM: usize> Links<K, DIM> {
    /// The links of the map without darts. It takes no memory.
    pub fn new(alloc: Global) -> Self
        requires low { 2 ≤ DIM }
        requires high { DIM ≤ 8 }
        ensures rows { result.rows ≡ None ∷ [] }
        ensures spare { result.spare ≡ 0 }
        ensures room { result.room ≡ 0 }
    {
        Links {
            rows: Arena::new(alloc),
            kind: PhantomData,
        }
    }

    /// The dimension of the map, from 2 to 8.
    pub fn dimension(&self) -> usize
        ensures dimension { result ≡ DIM }
        ensures low { 2 ≤ DIM }
        ensures high { DIM ≤ 8 }
        ensures sound { IsSound K.kind DIM self.now.rows }
    {
        let _ = &self.rows;
        DIM
    }

    /// The dimension is from 2 to 8, links and back links agree, and entries name live darts alone: so it is of all links. A
    /// caller that rests on it says so by this call, which does nothing.
    pub fn see_sound(&self)
        ensures low { 2 ≤ DIM }
        ensures high { DIM ≤ 8 }
        ensures begun { 0 < length self.now.rows }
        ensures sound { IsSound K.kind DIM self.now.rows }
    {
        let _ = &self.rows;
    }

    /// How many darts were made so far, dead ones among them: the greatest number of a dart, or 0.
    pub fn made(&self) -> u32
        ensures made { result ≡ made self.now.rows }
        ensures low { 2 ≤ DIM }
        ensures begun { 0 < length self.now.rows }
        ensures sound { IsSound K.kind DIM self.now.rows }
    {
        let _ = &self.kind;
        self.rows.made()
    }

    /// How many darts are live.
    pub fn live_count(&self) -> u32
        ensures count { result ≡ live_count self.now.rows }
    {
        self.rows.live_count()
    }

    /// Whether a dart is live.
    pub fn is_live(&self, dart: Dart) -> bool
        ensures live { IsTrue result ↔ IsLive self.now.rows dart }
        ensures sound { IsSound K.kind DIM self.now.rows }
    {
        self.rows.is_live(dart)
    }

    /// The least live dart above a number; none exactly where no dart above it is live. It costs the darts that it
    /// skips.
    pub fn next_live(&self, after: u32) -> Option<Dart>
        ensures next { IfSome result (λ dart. IsNextLive self.now after dart) }
        ensures none { IfNone result ((e : ℕ) → after < e → IsLive self.now.rows e → ⊥) }
    {
        self.rows.next_live(after)
    }

    /// The dart at a link of a dart; none exactly where the dart is not live or the link is free.
    pub fn link(&self, dart: Dart, link: usize) -> Option<Dart>
        requires { link ≤ DIM }
        ensures free { IsNone result ↔ (links_of self.now.rows link dart ≡ 0) }
        ensures linked { IfSome result (λ other. other ≡ links_of self.now.rows link dart) }
        ensures low { 2 ≤ DIM }
        ensures sound { IsSound K.kind DIM self.now.rows }
    {
        Dart::new(self.rows.entry(dart, link))
    }

    /// The number of the dart at a link of a dart; 0 where the dart is not live or the link is free.
    pub fn number_at(&self, dart: Dart, link: usize) -> u32
        requires { link ≤ DIM }
        ensures { result ≡ links_of self.now.rows link dart }
    {
        self.rows.entry(dart, link)
    }

    /// The row of a dart, to read from it the number of the dart at each link; where none is answered, all links are free,
    /// as those of a dart that is not live are.
    pub fn row(&self, dart: Dart) -> Option<&Row<DIM>>
        ensures { (link : ℕ) → entry_of (option_copied result) link ≡ links_of self.now.rows link dart }
    {
        self.rows.row(dart)
    }

    /// The row of a live dart, to read from it the number of the dart at each link. It costs less than `row`, which asks
    /// whether there is one.
    pub fn live_row(&self, dart: Dart) -> &Row<DIM>
        requires { IsLive self.now.rows dart }
        ensures { (link : ℕ) → slice_index result.now link ≡ links_of self.now.rows link dart }
    {
        self.rows.live_row(dart)
    }

    /// Whether a link of a live dart is free.
    pub fn is_free(&self, dart: Dart, link: usize) -> bool
        requires live { IsLive self.now.rows dart }
        requires link { link ≤ DIM }
        ensures { IsTrue result ↔ (links_of self.now.rows link dart ≡ 0) }
    {
        self.link(dart, link).is_none()
    }

    /// Makes room for so many births, and for so many more live darts, all without further memory. `Full` comes
    /// exactly where more than `MADE_MAX` darts would be made. A refusal leaves the links as they were.
    pub fn reserve(&mut self, births: u32) -> Result<(), ReserveFault>
        ensures rows { self.new.rows ≡ self.old.rows }

        // Success leaves that room, and room once there stays.
        ensures spare { OnOk result (births ≤ self.new.spare) }
        ensures room { OnOk result (births ≤ self.new.room) }
        ensures spare_stays { self.old.spare ≤ self.new.spare }
        ensures room_stays { self.old.room ≤ self.new.room }

        // It fails where there would be too many darts, or where room was missing and there is no memory for it.
        ensures full { IsErrOf result ReserveFault.Full ↔ (MADE_MAX < made self.old.rows + births) }
        ensures had_room { births ≤ self.old.spare → births ≤ self.old.room → made self.old.rows + births ≤ MADE_MAX → IsOk result }
        ensures err { OnErr result (self.new ≡ self.old) }
    {
        self.rows.reserve(births)
    }

    /// Makes an edit that fits. It takes no memory: room for the births was reserved.
    pub fn apply(&mut self, edit: &Edit)
        requires fits { Fits K.kind DIM self.old.rows edit.now }
        requires spare { edit.now.births ≤ self.old.spare }
        requires room { edit.now.births ≤ self.old.room }
        requires few { made self.old.rows + edit.now.births ≤ MADE_MAX }
        ensures rows { self.new.rows ≡ after_edit DIM edit.now self.old.rows }
        ensures spare { self.new.spare ≡ self.old.spare - edit.now.births }
        ensures room { self.new.room ≡ self.old.room - edit.now.births + length edit.now.deaths }
    {
        steps::bear(&mut self.rows, edit.births);
        edit.born.put_rows(&mut self.rows, edit.births);
        steps::link(&mut self.rows, &edit.changes);
        edit.born.put_back_links(&mut self.rows);
        steps::bury(&mut self.rows, &edit.deaths);
    }

    /// Takes an edit back that led here from links that it fits, and gives those links back, with as many darts made
    /// as then. It takes no memory.
    pub fn reverse(&mut self, edit: &Edit)
        requires led { (rows : Rows) × IsLed K.kind DIM edit.now rows self.old.rows }
        requires room { length edit.now.deaths ≤ self.old.room + edit.now.births }
        ensures rows { self.new.rows ≡ before_edit DIM edit.now self.old.rows }
        ensures back { (rows : Rows) → IsLed K.kind DIM edit.now rows self.old.rows → self.new.rows ≡ rows }
        ensures spare { self.new.spare ≡ self.old.spare + edit.now.births }
        ensures room { self.new.room ≡ self.old.room + edit.now.births - length edit.now.deaths }
    {
        steps::unbear(&mut self.rows, edit.births);
        steps::revive(&mut self.rows, &edit.deaths);
        edit.born.free_links(&mut self.rows);
        steps::unlink(&mut self.rows, &edit.changes);
    }

    /// Makes an edit told by changes alone, which fits. It takes no memory: room for the births was reserved.
    pub fn apply_plain(&mut self, edit: &PlainEdit)
        requires fits { Fits K.kind DIM self.old.rows edit.now }
        requires spare { edit.now.births ≤ self.old.spare }
        requires room { edit.now.births ≤ self.old.room }
        requires few { made self.old.rows + edit.now.births ≤ MADE_MAX }
        ensures rows { self.new.rows ≡ after_edit DIM edit.now self.old.rows }
        ensures spare { self.new.spare ≡ self.old.spare - edit.now.births }
        ensures room { self.new.room ≡ self.old.room - edit.now.births + length edit.now.deaths }
    {
        steps::bear(&mut self.rows, edit.births);
        steps::link(&mut self.rows, &edit.changes);
        steps::bury(&mut self.rows, &edit.deaths);
    }

    /// Takes an edit back that changes alone tell and that led here from links that it fits, and gives those links back,
    /// with as many darts made as then. It takes no memory.
    pub fn reverse_plain(&mut self, edit: &PlainEdit)
        requires led { (rows : Rows) × IsLed K.kind DIM edit.now rows self.old.rows }
        requires room { length edit.now.deaths ≤ self.old.room + edit.now.births }
        ensures rows { self.new.rows ≡ before_edit DIM edit.now self.old.rows }
        ensures back { (rows : Rows) → IsLed K.kind DIM edit.now rows self.old.rows → self.new.rows ≡ rows }
        ensures spare { self.new.spare ≡ self.old.spare + edit.now.births }
        ensures room { self.new.room ≡ self.old.room + edit.now.births - length edit.now.deaths }
    {
        steps::unbear(&mut self.rows, edit.births);
        steps::revive(&mut self.rows, &edit.deaths);
        steps::unlink(&mut self.rows, &edit.changes);
    }
}

impl<const DIM: usize> Links<Alpha, DIM> {
    /// Turns the links of each dart of a generalized map round: link i becomes link `DIM` - i. It takes no memory, and
    /// costs a few steps for each link of the darts that were made.
    pub fn reverse_links(&mut self)
        ensures links { (i d : ℕ) → i ≤ DIM → links_of self.new.rows i d ≡ links_of self.old.rows (DIM - i) d }
        ensures live { (d : ℕ) → IsLive self.new.rows d ↔ IsLive self.old.rows d }
        ensures rows { self.new.rows ≡ map (option_map reverse) self.old.rows }
        ensures low { 2 ≤ DIM }
        ensures sound { IsSound alpha DIM self.new.rows }
        ensures length { length self.new.rows ≡ length self.old.rows }
        ensures spare { self.new.spare ≡ self.old.spare }
        ensures room { self.new.room ≡ self.old.room }
    {
        self.rows.reverse_rows();
    }
}

impl<const DIM: usize> Links<Beta, DIM> {
    /// Makes the links of a combinatorial map that has a dual those of its dual. It takes no memory, and costs a few steps
    /// for each link of the darts that were made.
    pub fn dualize(&mut self)
        requires laws { Laws beta (links_of self.old.rows) }
        requires dualable { IsDualable beta DIM (links_of self.old.rows) (IsLive self.old.rows) }
        ensures dual { IsDual beta DIM (links_of self.old.rows) (links_of self.new.rows) }
        ensures live { (d : ℕ) → IsLive self.new.rows d ↔ IsLive self.old.rows d }
        ensures low { 2 ≤ DIM }
        ensures sound { IsSound beta DIM self.new.rows }
        ensures length { length self.new.rows ≡ length self.old.rows }
        ensures spare { self.new.spare ≡ self.old.spare }
        ensures room { self.new.room ≡ self.old.room }
    {
        dual::dualize(&mut self.rows);
    }
}
