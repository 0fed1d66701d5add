ghost use Rattle.std.specs.Prelude.{◌≡◌, ◌≢◌, ℕ, ◌+◌, ◌-◌, ◌^◌, ◌≤◌, ◌<◌, ◌↔◌, [], ◌∷◌, Some, None, length, reverse, map, option_map, option_copied, slice_index, IsTrue, IfSome, IfNone, IsOk, OnOk, OnErr, IsErrOf};
ghost use Rattle.map_defs.specs.Rows.{entry_of, links_of};
ghost use Rattle.map_defs.specs.Edits.{free_row, linked, with_births, with_entry};
ghost use Rattle.dart_arena.specs.RowChanges.{row_changes};
ghost use Rattle.dart_arena.specs.Stock.{made, row_at, IsLive, live_count, IsStock, born, unborn, buried, revived, IsNextLive};

use crate::places::Places;
use crate::row::Row;
use crate::slots::{
    entry_in, fill_rows, give_row, put_all_there, put_links_in_row, remove_dead, row_in, row_there,
    set_in_row, set_there, take_row, turn_row, widen,
};
use map_kind::Dart;
use slab::Slab;
use std::alloc::{AllocError, Global};
use std::marker::Model;
use thiserror::Error;

/// How many darts are ever made at most.
pub const MADE_MAX: u32 = 4_194_304;

/// The greatest dimension of a map.
pub const DIM_MAX: usize = 8;

/// Where room is wanting, it is made for so many births at least.
const BIRTHS_MIN: u32 = 64;

/// Keys of rows are kept once more darts are dead than this, and than live.
const DEAD_MIN: usize = 4_096;

/// Why no room is made.
#[derive(Clone, Copy, Debug, PartialEq, Eq, Error)]
pub enum ReserveFault {
    /// More than `MADE_MAX` darts would be made.
    #[error("more than {} darts would be made", MADE_MAX)]
    Full,
    /// There is no memory.
    #[error("out of memory")]
    NoMemory,
}

/// A row for each live dart of a map of dimension `DIM`, under the dart's number: its entries 0 to `DIM`, each a number,
/// 0 where nothing stands. A dart dies when its row is taken away, and its number is not given again; only the last
/// birth can be taken back with its number.
#[derive(Drop)]
pub struct Arena<const DIM: usize> {
    rows: Slab<Row<DIM>>,
    places: Places,
    // How many darts are live.
    count: usize,
    // So many new numbers can be given without memory.
    spare: usize,
    // So many more rows can live without memory.
    room: usize,
}

impl<const DIM: usize> Model for Arena<DIM> {
    ghost use Rattle.std.specs.Prelude.{ℕ, ◌≤◌, ◌+◌, List, ◌∷◌, None, length};
    ghost use Rattle.std.specs.Coded.{coded_ℕ, coded_list};
    ghost use Rattle.dart_arena.specs.Stock.{Stock, stock_code};
    ghost use Rattle.map_defs.specs.Rows.{made_max};
    ghost use Rattle.dart_arena.specs.Layout.{keys_of, places_capacity, rows_under, IsArranged, is_in_order};

    ghost Value = { Stock (List ℕ) };

    ghost coded = { stock_code (coded_list coded_ℕ) };

    ghost view = { λ arena. record {
      rows = None ∷ rows_under arena.rows (keys_of arena.places);
      spare = arena.spare;
      room = arena.room;
    } };

    ghost invariant = { λ arena.
        (DIM ≤ 8) × IsArranged (is_in_order arena.places) DIM arena.rows (keys_of arena.places) arena.count arena.spare arena.room
        × (length (keys_of arena.places) + arena.spare ≤ places_capacity arena.places)
        × (length (keys_of arena.places) + arena.spare ≤ made_max) };
}

impl<const DIM: usize> Arena<DIM> {
    /// The arena without darts. It takes no memory.
    pub fn new(alloc: Global) -> Self
        requires { DIM ≤ DIM_MAX }
        ensures rows { result.rows ≡ None ∷ [] }
        ensures spare { result.spare ≡ 0 }
        ensures room { result.room ≡ 0 }
    {
        Arena {
            rows: Slab::new(alloc),
            places: Places::new(alloc),
            count: 0,
            spare: 0,
            room: 0,
        }
    }

    /// How many darts were made so far, dead ones among them: the greatest number of a dart, or 0.
    pub fn made(&self) -> u32
        ensures made { result ≡ made self.now }
        ensures kept { IsStock MADE_MAX self.now }
    {
        self.places.made() as u32
    }

    /// How many darts are live.
    pub fn live_count(&self) -> u32
        ensures count { result ≡ live_count self.now }
    {
        self.count as u32
    }

    /// Whether a dart is live.
    pub fn is_live(&self, dart: Dart) -> bool
        ensures { IsTrue result ↔ IsLive self.now dart }
    {
        self.places.key(place(dart)) != 0
    }

    /// The entry at a link of a dart, 0 also where the dart is not live.
    pub fn entry(&self, dart: Dart, link: usize) -> u32
        requires { link ≤ DIM }
        ensures { result ≡ links_of self.now.rows link dart }
    {
        entry_in(&self.rows, self.places.key_to_read(place(dart)), link)
    }

    /// The row of a dart, to read its entries from; where none is answered, all entries are 0, as those of a dart that is
    /// not live are.
    pub fn row(&self, dart: Dart) -> Option<&Row<DIM>>
        ensures { (link : ℕ) → entry_of (option_copied result) link ≡ links_of self.now.rows link dart }
    {
        row_in(&self.rows, self.places.key_to_read(place(dart)))
    }

    /// The row of a live dart, to read its entries from. It costs less than `row`, which asks whether there is one.
    pub fn live_row(&self, dart: Dart) -> &Row<DIM>
        requires { IsLive self.now dart }
        ensures { (link : ℕ) → slice_index result.now link ≡ links_of self.now.rows link dart }
    {
        row_there(&self.rows, self.places.live_key(place(dart)))
    }

    /// The least live dart above a number; none exactly where no dart above it is live. It costs the darts that it
    /// skips.
    pub fn next_live(&self, after: u32) -> Option<Dart>
        ensures next { IfSome result (λ dart. IsNextLive self.now after dart) }
        ensures none { IfNone result ((e : ℕ) → after < e → IsLive self.now e → ⊥) }
    {
        for place in after as usize..self.places.made() {
            if self.places.key(place) != 0 {
                return Dart::new(place as u32 + 1);
            }
        }
        None
    }

    /// Makes room for so many births, and for so many more live darts, all without further memory. `Full` comes
    /// exactly where more than `MADE_MAX` darts would be made. A refusal leaves the arena as it was.
    pub fn reserve(&mut self, births: u32) -> Result<(), ReserveFault>
        ensures rows { self.new.rows ≡ self.old.rows }

        // Success leaves that room, and room once there stays.
        ensures spare { OnOk result (births ≤ self.new.spare) }
        ensures room { OnOk result (births ≤ self.new.room) }
        ensures spare_stays { self.old.spare ≤ self.new.spare }
        ensures room_stays { self.old.room ≤ self.new.room }

        // It fails where there would be too many darts, or where room was missing and there is no memory for it.
        ensures full { IsErrOf result ReserveFault.Full ↔ (MADE_MAX < made self.old + births) }
        ensures had_room { births ≤ self.old.spare → births ≤ self.old.room → made self.old + births ≤ MADE_MAX → IsOk result }
        ensures err { OnErr result (self.new ≡ self.old) }
    {
        let most = MADE_MAX - self.made();
        if births > most {
            return Err(ReserveFault::Full);
        }
        if births as usize <= self.spare && births as usize <= self.room {
            return Ok(());
        }
        if self.keep_keys().is_err() {
            return Err(ReserveFault::NoMemory);
        }
        match self.grow(births.max(BIRTHS_MIN).min(most) as usize) {
            Ok(()) => Ok(()),
            Err(_) => Err(ReserveFault::NoMemory),
        }
    }

    /// Keeps the keys of rows from now on where that pays, so that the rows of dead darts are used again; but not where a key
    /// might not fit into 32 bits. An error leaves the arena as it was.
    fn keep_keys(&mut self) -> Result<(), AllocError>
        ensures { self.new ≡ self.old }
    {
        let dead = self.places.made() - self.count;
        let narrow = self.rows.capacity() <= u32::MAX as usize;
        if narrow && pays(dead, self.count) && self.places.is_in_order() {
            self.places.keep_keys(self.spare)?;
            remove_dead(&mut self.rows, &self.places);
        }
        Ok(())
    }

    /// Makes room for so many births, and for so many more live darts. An error leaves the arena as it was.
    fn grow(&mut self, births: usize) -> Result<(), AllocError>
        requires { made self.old + births ≤ MADE_MAX }
        ensures rows { self.new.rows ≡ self.old.rows }
        ensures spare { OnOk result (births ≤ self.new.spare) }
        ensures room { OnOk result (births ≤ self.new.room) }
        ensures spare_stays { self.old.spare ≤ self.new.spare }
        ensures room_stays { self.old.room ≤ self.new.room }
        ensures err { OnErr result (self.new ≡ self.old) }
    {
        let spare = births.max(self.spare);
        if !self.places.is_in_order() {
            let room = births.max(self.room);
            widen(&mut self.rows, &mut self.places, spare, room)?;
            self.spare = spare;
            self.room = room;
            return Ok(());
        }
        self.places.reserve(spare)?;
        fill_rows(&mut self.rows, self.places.made() + spare)?;
        self.room += spare - self.spare;
        self.spare = spare;
        Ok(())
    }

    /// Makes a dart whose entries are all 0. Its number is one more than that of the dart made before it.
    pub fn birth(&mut self) -> Dart
        requires spare { 1 ≤ self.old.spare }
        requires room { 1 ≤ self.old.room }
        requires few { made self.old < MADE_MAX }
        ensures dart { result ≡ made self.old + 1 }
        ensures born { self.new ≡ born self.old (free_row DIM) }
    {
        let key = take_row(
            &mut self.rows,
            self.places.is_in_order(),
            self.places.made(),
        );
        self.places.push(key);
        self.count += 1;
        self.spare -= 1;
        self.room -= 1;
        Dart::new(self.places.made() as u32).unwrap()
    }

    /// Makes so many darts whose entries are all 0. Their numbers go on from that of the dart made last.
    pub fn bear(&mut self, births: u32)
        requires spare { births ≤ self.old.spare }
        requires room { births ≤ self.old.room }
        requires few { made self.old + births ≤ MADE_MAX }
        ensures rows { self.new.rows ≡ with_births DIM births self.old.rows }
        ensures spare { self.new.spare ≡ self.old.spare - births }
        ensures room { self.new.room ≡ self.old.room - births }
    {
        if !self.places.is_in_order() {
            for _birth in 0..births {
                self.birth();
            }
            return;
        }
        let births = births as usize;
        self.places.push_in_order(births);
        self.count += births;
        self.spare -= births;
        self.room -= births;
    }

    /// Takes the last birth back: the number of dart `made`, which must live, can be given again.
    pub fn unbirth(&mut self)
        requires { IsLive self.old (made self.old) }
        ensures { self.new ≡ unborn self.old }
    {
        let key = self.places.key(self.places.made() - 1);
        give_row(&mut self.rows, self.places.is_in_order(), key);
        self.places.pop();
        self.count -= 1;
        self.spare += 1;
        self.room += 1;
    }

    /// Ends a live dart. Its number is not given again.
    pub fn bury(&mut self, dart: Dart)
        requires { IsLive self.old dart }
        ensures { self.new ≡ buried self.old dart }
    {
        let place = place(dart);
        let key = self.places.key(place);
        give_row(&mut self.rows, self.places.is_in_order(), key);
        self.places.clear(place);
        self.count -= 1;
        self.room += 1;
    }

    /// Brings a dart that was made and is not live back. Its entries are all 0.
    pub fn revive(&mut self, dart: Dart)
        requires made { dart ≤ made self.old }
        requires dead { row_at self.old dart ≡ None }
        requires room { 1 ≤ self.old.room }
        ensures { self.new ≡ revived self.old dart (free_row DIM) }
    {
        let place = place(dart);
        let key = take_row(&mut self.rows, self.places.is_in_order(), place);
        self.places.fill(place, key);
        self.count += 1;
        self.room -= 1;
    }

    /// Puts an entry at a link of a dart, if the dart is live: one that is not has no row.
    pub fn set_entry(&mut self, dart: Dart, link: usize, to: u32)
        requires { link ≤ DIM }
        ensures rows { self.new.rows ≡ with_entry self.old.rows dart link to }
        ensures spare { self.new.spare ≡ self.old.spare }
        ensures room { self.new.room ≡ self.old.room }
    {
        let key = self.places.key(place(dart));
        set_in_row(&mut self.rows, key, link, to);
    }

    /// Puts an entry at a link of a live dart. It costs less than `set_entry`, which asks whether the dart is live.
    pub fn set_live_entry(&mut self, dart: Dart, link: usize, to: u32)
        requires live { IsLive self.old dart }
        requires link { link ≤ DIM }
        ensures rows { self.new.rows ≡ with_entry self.old.rows dart link to }
        ensures spare { self.new.spare ≡ self.old.spare }
        ensures room { self.new.room ≡ self.old.room }
    {
        let key = self.places.live_key(place(dart));
        set_there(&mut self.rows, key, link, to);
    }

    /// Puts those of these numbers that are not 0 at their links of a dart, if the dart is live: one that is not has no row.
    /// The numbers stand in the order of the links, from 0 on.
    pub fn put_links(&mut self, dart: Dart, links: &[u32])
        requires { (link : ℕ) → slice_index links.now link ≢ 0 → link ≤ DIM }
        ensures rows { self.new.rows ≡ linked (row_changes dart 0 links.now) self.old.rows }
        ensures spare { self.new.spare ≡ self.old.spare }
        ensures room { self.new.room ≡ self.old.room }
    {
        let key = self.places.key(place(dart));
        put_links_in_row(&mut self.rows, key, links);
    }

    /// Puts all links of a live dart that has none yet. The numbers stand in the order of the links, from 0 on, 0 where the
    /// link stays free. It costs less than `put_links`, which asks for each number whether it is 0.
    pub fn put_row(&mut self, dart: Dart, links: &[u32])
        requires bare { row_at self.old dart ≡ Some (free_row DIM) }
        requires wide { length links.now ≡ DIM + 1 }
        ensures rows { self.new.rows ≡ linked (row_changes dart 0 links.now) self.old.rows }
        ensures spare { self.new.spare ≡ self.old.spare }
        ensures room { self.new.room ≡ self.old.room }
    {
        let key = self.places.live_key(place(dart));
        put_all_there(&mut self.rows, key, links);
    }

    /// Turns each row round: entry i of each live dart becomes its entry `DIM` - i. It takes no memory, and costs a few
    /// steps for each entry of the darts that were made.
    pub fn reverse_rows(&mut self)
        ensures rows { self.new.rows ≡ map (option_map reverse) self.old.rows }
        ensures spare { self.new.spare ≡ self.old.spare }
        ensures room { self.new.room ≡ self.old.room }
    {
        for place in 0..self.places.made() {
            let key = self.places.key(place);
            turn_row(&mut self.rows, key);
        }
    }

    /// For how many rows the arena holds memory, those of live darts among them.
    pub fn row_capacity(&self) -> usize
        ensures { live_count self.now + self.now.room ≤ result }
    {
        self.rows.capacity()
    }
}

/// The place of a dart.
fn place(dart: Dart) -> usize
    ensures place { result + 1 ≡ dart }
    ensures within { result < 2 ^ 32 }
{
    dart.number() as usize - 1
}

/// Whether it pays to keep the keys of rows, so that those of dead darts are used again.
fn pays(dead: usize, live: usize) -> bool
    ensures { IsTrue result ↔ (DEAD_MIN < dead) × (live < dead) }
{
    dead > DEAD_MIN && dead > live
}
