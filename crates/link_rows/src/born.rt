//! The links of new darts, told by rows.
ghost use Rattle.std.specs.Prelude.{◌≡◌, ◌≢◌, ℕ, ◌+◌, ◌≤◌, ◌<◌, ◌^◌, ◌↔◌, ◌++◌, ◌∷◌, [], length, replicate, slice_index, slice_index_or, slice_set, Some, None, Contains, IsTrue, IfOk, IfSome, IsNone, OnOk};
ghost use Rattle.std.specs.Prelude.{All};
ghost use Rattle.map_defs.specs.Edits.{Change as LinkChange, free_row, linked, unlinked};
ghost use Rattle.dart_arena.specs.RowChanges.{row_changes};
ghost use Rattle.dart_arena.specs.Stock.{made, row_at, IsLive};
ghost use Rattle.link_rows.specs.BornRows.{rows_changes, led_back};

use crate::edit::Change;
use dart_arena::{Arena, Row};
use map_kind::Dart;
use std::alloc::{AllocError, Global};
use std::marker::Model;

/// The links of new darts, which are numbered on from a first one: a row for each, with a number for each link, 0 where it
/// is free. All rows are of one width. The rows can tell also that the darts which they name at one link, where it was free,
/// lead back by it to the new darts.
#[derive(Drop)]
pub struct BornRows {
    first: Dart,
    width: usize,
    count: usize,
    // One row behind the other.
    numbers: Vec<u32>,
    // The link at which the darts that the rows name lead back.
    back: Option<usize>,
}

impl Model for BornRows {
    ghost use Rattle.std.specs.Prelude.{length, ◌≡◌, ◌+◌, ◌*◌, ◌^◌, ◌<◌, ◌≤◌, IfSome};
    ghost use Rattle.link_rows.specs.BornRows.{NewRows, rows_of};

    ghost Value = { NewRows };

    ghost view = { λ born. record { first = born.first; width = born.width; rows = rows_of born.width born.count born.numbers.items; back = born.back } };

    ghost invariant = { λ born.
        (length born.numbers.items ≡ born.count * born.width) × (born.first + born.count ≤ 2 ^ 32)
        × IfSome born.back (λ link. link < born.width) };
}

impl BornRows {
    /// No rows. It takes no memory.
    pub fn none(alloc: Global) -> Self
        ensures rows { result.rows ≡ [] }
        ensures back { result.back ≡ None }
    {
        BornRows {
            first: Dart::new(1).unwrap(),
            width: 0,
            count: 0,
            numbers: Vec::new(alloc),
            back: None,
        }
    }

    /// No rows yet of darts that are numbered on from the first, with room for so many, each so wide.
    /// [`AllocError`] comes where memory for that room is wanting.
    pub fn with_room(
        alloc: Global,
        first: Dart,
        width: usize,
        rows: usize,
    ) -> Result<Self, AllocError>
        ensures { IfOk result (λ born. born ≡ record { first = first; width = width; rows = []; back = None }) }
    {
        Ok(BornRows {
            first,
            width,
            count: 0,
            numbers: Vec::with_capacity(alloc, rows.saturating_mul(width))?,
            back: None,
        })
    }

    /// So many rows of darts that are numbered on from the first, each so wide, with all links free.
    /// [`AllocError`] comes where memory for them is wanting, and where all their links together are more than a `usize` counts.
    pub fn zeros(alloc: Global, first: Dart, width: usize, rows: usize) -> Result<Self, AllocError>
        requires { first + rows ≤ 2 ^ 32 }
        ensures { IfOk result (λ born. born ≡ record { first = first; width = width; rows = replicate rows (replicate width 0); back = None }) }
    {
        let Some(size) = rows.checked_mul(width) else {
            return Err(AllocError);
        };
        let mut numbers = Vec::new(alloc);
        numbers.resize(size, 0)?;
        Ok(BornRows {
            first,
            width,
            count: rows,
            numbers,
            back: None,
        })
    }

    /// How many rows there are.
    pub fn len(&self) -> usize
        ensures { result ≡ length self.now.rows }
    {
        self.count
    }

    /// Appends the row of the next dart.
    pub fn push<const DIM: usize>(&mut self, row: &Row<DIM>) -> Result<(), AllocError>
        requires width { self.old.width ≡ DIM + 1 }
        requires few { self.old.first + length self.old.rows < 2 ^ 32 }
        ensures { OnOk result (self.new ≡ record self.old { rows = self.old.rows ++ row.now ∷ [] }) }
    {
        self.numbers.reserve(row.width())?;
        for link in 0..row.width() {
            self.numbers.push_reserved(row.entry(link));
        }
        self.count += 1;
        Ok(())
    }

    /// Puts a row in the place of another. Places count from 0.
    pub fn put<const DIM: usize>(&mut self, place: usize, row: &Row<DIM>)
        requires width { self.old.width ≡ DIM + 1 }
        requires place { place < length self.old.rows }
        ensures { self.new ≡ record self.old { rows = slice_set self.old.rows place row.now } }
    {
        let start = place * self.width;
        for link in 0..row.width() {
            self.numbers[start + link] = row.entry(link);
        }
    }

    /// Puts a number at a link of the row at a place.
    pub fn set(&mut self, place: usize, link: usize, to: u32)
        requires link { link < self.old.width }
        requires place { place < length self.old.rows }
        ensures { self.new ≡ record self.old { rows = slice_set self.old.rows place (slice_set (slice_index_or self.old.rows place []) link to) } }
    {
        self.numbers[place * self.width + link] = to;
    }

    /// From now on the rows tell also that the darts which they name at this link, where it was free, lead back by it to the
    /// new darts.
    pub fn lead_back(&mut self, link: usize)
        requires { link < self.old.width }
        ensures { self.new ≡ record self.old { back = Some link } }
    {
        self.back = Some(link);
    }

    /// The link at which the darts that the rows name lead back, if there is one.
    pub fn back(&self) -> Option<usize>
        ensures { result ≡ self.now.back }
    {
        self.back
    }

    /// Whether there is a row, and the first one is that of a dart up to a number.
    pub fn begin_by(&self, number: u32) -> bool
        ensures { IsTrue result ↔ ((0 < length self.now.rows) × (self.now.first ≤ number)) }
    {
        self.count != 0 && self.first.number() <= number
    }

    /// Appends the changes that the rows tell.
    pub fn append_changes(&self, changes: &mut Vec<Change>) -> Result<(), AllocError>
        ensures { OnOk result (changes.new.items ≡ changes.old.items ++ (led_back self.now.back self.now.first self.now.rows ++ rows_changes self.now.first self.now.rows)) }
    {
        self.append_back_changes(changes)?;
        self.append_row_changes(changes)
    }

    /// The change of a link of a dart, if there is one.
    pub fn change_of(&self, dart: Dart, link: usize) -> Option<Change>
        ensures some { IfSome result (λ change. Contains (led_back self.now.back self.now.first self.now.rows ++ rows_changes self.now.first self.now.rows) change
            × (change.dart ≡ dart) × (change.link ≡ link)) }
        ensures none { IsNone result → (c : LinkChange) → Contains (led_back self.now.back self.now.first self.now.rows ++ rows_changes self.now.first self.now.rows) c
            → c.dart ≡ dart → c.link ≡ link → ⊥ }
    {
        match self.row_change_of(dart, link) {
            Some(change) => Some(change),
            None => self.back_change_of(dart, link),
        }
    }

    /// Puts the links of the new darts, as far as these are live. So many of the last darts that were made have no links yet;
    /// where all new darts are among them, whole rows are put.
    pub(crate) fn put_rows<const DIM: usize>(&self, rows: &mut Arena<DIM>, births: u32)
        requires links { All (λ c. c.link ≤ DIM) (rows_changes self.now.first self.now.rows) }
        requires bare { (d : ℕ) → made rows.old < d + births → d ≤ made rows.old → row_at rows.old d ≡ Some (free_row DIM) }
        requires high { DIM ≤ 8 }
        ensures rows { rows.new.rows ≡ linked (rows_changes self.now.first self.now.rows) rows.old.rows }
        ensures spare { rows.new.spare ≡ rows.old.spare }
        ensures room { rows.new.room ≡ rows.old.room }
    {
        if self.width == DIM + 1 && self.are_among_last(births, rows.made()) {
            self.put_whole_rows(rows);
        } else {
            self.put_row_links(rows);
        }
    }

    /// Frees the links of the new darts, as far as these are live, and those that lead back to them, the last one first.
    pub(crate) fn free_links<const DIM: usize>(&self, rows: &mut Arena<DIM>)
        requires { All (λ c. c.link ≤ DIM) (led_back self.now.back self.now.first self.now.rows ++ rows_changes self.now.first self.now.rows) }
        ensures rows { rows.new.rows ≡ unlinked (led_back self.now.back self.now.first self.now.rows ++ rows_changes self.now.first self.now.rows) rows.old.rows }
        ensures spare { rows.new.spare ≡ rows.old.spare }
        ensures room { rows.new.room ≡ rows.old.room }
    {
        self.free_row_links(rows);
        self.free_back_links(rows);
    }

    /// Appends the changes of the new darts' links.
    fn append_row_changes(&self, changes: &mut Vec<Change>) -> Result<(), AllocError>
        ensures { OnOk result (changes.new.items ≡ changes.old.items ++ rows_changes self.now.first self.now.rows) }
    {
        for place in 0..self.count {
            append_row(self.dart_at(place), self.row_at(place), changes)?;
        }
        Ok(())
    }

    /// The change of a link of a new dart, if there is one.
    fn row_change_of(&self, dart: Dart, link: usize) -> Option<Change>
        ensures some { IfSome result (λ change. Contains (rows_changes self.now.first self.now.rows) change
            × (change.dart ≡ dart) × (change.link ≡ link)) }
        ensures none { IsNone result → (c : LinkChange) → Contains (rows_changes self.now.first self.now.rows) c
            → c.dart ≡ dart → c.link ≡ link → ⊥ }
    {
        let number = dart.number();
        let first = self.first.number();
        if number < first || link >= self.width {
            return None;
        }
        let place = (number - first) as usize;
        if place >= self.count {
            return None;
        }
        let new = self.row_at(place)[link];
        if new == 0 {
            return None;
        }
        Some(Change::new(dart, link, 0, new))
    }

    /// Whether all new darts are among so many of the last darts that were made.
    fn are_among_last(&self, births: u32, made: u32) -> bool
        ensures { IsTrue result ↔ ((made < self.now.first + births) × (self.now.first + length self.now.rows ≤ made + 1)) }
    {
        let first = self.first.number() as usize;
        (made as usize) < first + births as usize && first + self.count <= made as usize + 1
    }

    /// Puts the whole rows of the new darts, which are live and have no links yet.
    fn put_whole_rows<const DIM: usize>(&self, rows: &mut Arena<DIM>)
        requires width { self.now.width ≡ DIM + 1 }
        requires bare { (place : ℕ) → place < length self.now.rows → row_at rows.old (self.now.first + place) ≡ Some (free_row DIM) }
        ensures rows { rows.new.rows ≡ linked (rows_changes self.now.first self.now.rows) rows.old.rows }
        ensures spare { rows.new.spare ≡ rows.old.spare }
        ensures room { rows.new.room ≡ rows.old.room }
    {
        for place in 0..self.count {
            rows.put_row(self.dart_at(place), self.row_at(place));
        }
    }

    /// Puts the links of the new darts, as far as these are live.
    fn put_row_links<const DIM: usize>(&self, rows: &mut Arena<DIM>)
        requires { All (λ c. c.link ≤ DIM) (rows_changes self.now.first self.now.rows) }
        ensures rows { rows.new.rows ≡ linked (rows_changes self.now.first self.now.rows) rows.old.rows }
        ensures spare { rows.new.spare ≡ rows.old.spare }
        ensures room { rows.new.room ≡ rows.old.room }
    {
        for place in 0..self.count {
            rows.put_links(self.dart_at(place), self.row_at(place));
        }
    }

    /// Frees the links of the new darts, the last one first, as far as these are live.
    fn free_row_links<const DIM: usize>(&self, rows: &mut Arena<DIM>)
        requires { All (λ c. c.link ≤ DIM) (rows_changes self.now.first self.now.rows) }
        ensures rows { rows.new.rows ≡ unlinked (rows_changes self.now.first self.now.rows) rows.old.rows }
        ensures spare { rows.new.spare ≡ rows.old.spare }
        ensures room { rows.new.room ≡ rows.old.room }
    {
        for place in (0..self.count).rev() {
            free_row(rows, self.dart_at(place), self.row_at(place));
        }
    }

    /// Appends the changes by which darts lead back to the new ones.
    fn append_back_changes(&self, changes: &mut Vec<Change>) -> Result<(), AllocError>
        ensures { OnOk result (changes.new.items ≡ changes.old.items ++ led_back self.now.back self.now.first self.now.rows) }
    {
        let Some(link) = self.back else {
            return Ok(());
        };
        for place in 0..self.count {
            if let Some(change) = self.back_change(place, link) {
                changes.push(change)?;
            }
        }
        Ok(())
    }

    /// The change by which a dart leads back to a new one by a link, if there is one.
    fn back_change_of(&self, dart: Dart, link: usize) -> Option<Change>
        ensures some { IfSome result (λ change. Contains (led_back self.now.back self.now.first self.now.rows) change
            × (change.dart ≡ dart) × (change.link ≡ link)) }
        ensures none { IsNone result → (c : LinkChange) → Contains (led_back self.now.back self.now.first self.now.rows) c
            → c.dart ≡ dart → c.link ≡ link → ⊥ }
    {
        let Some(back) = self.back else {
            return None;
        };
        if back != link {
            return None;
        }
        for place in 0..self.count {
            if self.number_at(place, link) == dart.number() {
                return self.back_change(place, link);
            }
        }
        None
    }

    /// Puts the links that lead back to the new darts.
    pub(crate) fn put_back_links<const DIM: usize>(&self, rows: &mut Arena<DIM>)
        requires links { All (λ c. c.link ≤ DIM) (led_back self.now.back self.now.first self.now.rows) }
        requires live { All (λ c. IsLive rows.old c.dart) (led_back self.now.back self.now.first self.now.rows) }
        ensures rows { rows.new.rows ≡ linked (led_back self.now.back self.now.first self.now.rows) rows.old.rows }
        ensures spare { rows.new.spare ≡ rows.old.spare }
        ensures room { rows.new.room ≡ rows.old.room }
    {
        let Some(link) = self.back else {
            return;
        };
        for place in 0..self.count {
            if let Some(dart) = self.named_at(place, link) {
                rows.set_live_entry(dart, link, self.dart_at(place).number());
            }
        }
    }

    /// Frees the links that lead back to the new darts, the last one first.
    fn free_back_links<const DIM: usize>(&self, rows: &mut Arena<DIM>)
        requires { All (λ c. c.link ≤ DIM) (led_back self.now.back self.now.first self.now.rows) }
        ensures rows { rows.new.rows ≡ unlinked (led_back self.now.back self.now.first self.now.rows) rows.old.rows }
        ensures spare { rows.new.spare ≡ rows.old.spare }
        ensures room { rows.new.room ≡ rows.old.room }
    {
        let Some(link) = self.back else {
            return;
        };
        for place in (0..self.count).rev() {
            if let Some(dart) = self.named_at(place, link) {
                rows.set_entry(dart, link, 0);
            }
        }
    }

    /// The change by which the dart that the row at a place names at a link leads back, if the row names one there.
    fn back_change(&self, place: usize, link: usize) -> Option<Change>
        requires place { place < length self.now.rows }
        requires link { link < self.now.width }
        ensures some { IfSome result (λ change. change ≡ record {
          dart = slice_index (slice_index_or self.now.rows place []) link;
          link = link;
          old = 0;
          new = self.now.first + place;
        }) }
        ensures named { IfSome result (λ change. slice_index (slice_index_or self.now.rows place []) link ≢ 0) }
        ensures none { IsNone result → slice_index (slice_index_or self.now.rows place []) link ≡ 0 }
    {
        let dart = self.named_at(place, link)?;
        Some(Change::new(dart, link, 0, self.dart_at(place).number()))
    }

    /// The dart that the row at a place names at a link, if it names one there.
    fn named_at(&self, place: usize, link: usize) -> Option<Dart>
        requires place { place < length self.now.rows }
        requires link { link < self.now.width }
        ensures some { IfSome result (λ dart. dart ≡ slice_index (slice_index_or self.now.rows place []) link) }
        ensures named { IfSome result (λ dart. slice_index (slice_index_or self.now.rows place []) link ≢ 0) }
        ensures none { IsNone result → slice_index (slice_index_or self.now.rows place []) link ≡ 0 }
    {
        Dart::new(self.number_at(place, link))
    }

    /// The number at a link of the row at a place.
    fn number_at(&self, place: usize, link: usize) -> u32
        requires place { place < length self.now.rows }
        requires link { link < self.now.width }
        ensures { result ≡ slice_index (slice_index_or self.now.rows place []) link }
    {
        self.numbers[place * self.width + link]
    }

    /// The dart of the row at a place.
    fn dart_at(&self, place: usize) -> Dart
        requires { place < length self.now.rows }
        ensures { result ≡ self.now.first + place }
    {
        Dart::new(self.first.number() + place as u32).unwrap()
    }

    /// The numbers of the row at a place.
    fn row_at(&self, place: usize) -> &[u32]
        requires { place < length self.now.rows }
        ensures row { result.now ≡ slice_index_or self.now.rows place [] }
        ensures wide { length result.now ≡ self.now.width }
    {
        let start = place * self.width;
        &self.numbers[start..start + self.width]
    }
}

/// Appends the changes that give a new dart these links, which count from 0.
fn append_row(dart: Dart, links: &[u32], changes: &mut Vec<Change>) -> Result<(), AllocError>
    ensures { OnOk result (changes.new.items ≡ changes.old.items ++ row_changes dart 0 links.now) }
{
    for link in 0..links.len() {
        let new = links[link];
        if new != 0 {
            changes.push(Change::new(dart, link, 0, new))?;
        }
    }
    Ok(())
}

/// Frees those of these links of a dart that are not 0, the last one first, if the dart is live.
fn free_row<const DIM: usize>(rows: &mut Arena<DIM>, dart: Dart, links: &[u32])
    requires { (link : ℕ) → slice_index links.now link ≢ 0 → link ≤ DIM }
    ensures rows { rows.new.rows ≡ unlinked (row_changes dart 0 links.now) rows.old.rows }
    ensures spare { rows.new.spare ≡ rows.old.spare }
    ensures room { rows.new.room ≡ rows.old.room }
{
    for link in (0..links.len()).rev() {
        if links[link] != 0 {
            rows.set_entry(dart, link, 0);
        }
    }
}
