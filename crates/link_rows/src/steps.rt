//! The steps of an edit, one kind after another, on rows whose links need not lead back meanwhile.
ghost use Rattle.std.specs.Prelude.{◌≡◌, ◌≢◌, ℕ, ◌+◌, ◌-◌, ◌≤◌, ◌<◌, None, All, length, take};
ghost use Rattle.std.specs.List.{AllPairs};
ghost use Rattle.dart_arena.specs.Stock.{Stock, made, row_at, IsLive};
ghost use Rattle.map_defs.specs.Edits.{with_births, linked, unlinked, buried, revived};

use crate::edit::Change;
use dart_arena::{Arena, MADE_MAX};
use map_kind::Dart;

/// Makes so many darts without links.
pub fn bear<const DIM: usize>(rows: &mut Arena<DIM>, births: u32)
    requires spare { births ≤ rows.old.spare }
    requires room { births ≤ rows.old.room }
    requires few { made rows.old + births ≤ MADE_MAX }
    ensures rows { rows.new.rows ≡ with_births DIM births rows.old.rows }
    ensures spare { rows.new.spare ≡ rows.old.spare - births }
    ensures room { rows.new.room ≡ rows.old.room - births }
{
    rows.bear(births);
}

/// Takes the last births back.
pub fn unbear<const DIM: usize>(rows: &mut Arena<DIM>, births: u32)
    requires many { births < length rows.old.rows }
    requires live { (d : ℕ) → length rows.old.rows - births ≤ d → d < length rows.old.rows → IsLive rows.old d }
    ensures rows { rows.new.rows ≡ take (length rows.old.rows - births) rows.old.rows }
    ensures spare { rows.new.spare ≡ rows.old.spare + births }
    ensures room { rows.new.room ≡ rows.old.room + births }
{
    for _birth in 0..births {
        rows.unbirth();
    }
}

/// Ends these darts.
pub fn bury<const DIM: usize>(rows: &mut Arena<DIM>, darts: &[Dart])
    requires live { All (IsLive rows.old) darts.now }
    requires once { AllPairs (λ d e. d ≢ e) darts.now }
    ensures rows { rows.new.rows ≡ buried darts.now rows.old.rows }
    ensures spare { rows.new.spare ≡ rows.old.spare }
    ensures room { rows.new.room ≡ rows.old.room + length darts.now }
{
    for dart in darts {
        rows.bury(*dart);
    }
}

/// Brings these darts back, without links, the last one first.
pub fn revive<const DIM: usize>(rows: &mut Arena<DIM>, darts: &[Dart])
    requires dead { All (λ d. row_at rows.old d ≡ None) darts.now }
    requires made { All (λ d. d < length rows.old.rows) darts.now }
    requires once { AllPairs (λ d e. d ≢ e) darts.now }
    requires room { length darts.now ≤ rows.old.room }
    ensures rows { rows.new.rows ≡ revived DIM darts.now rows.old.rows }
    ensures spare { rows.new.spare ≡ rows.old.spare }
    ensures room { rows.new.room ≡ rows.old.room - length darts.now }
{
    for index in (0..darts.len()).rev() {
        rows.revive(darts[index]);
    }
}

/// Puts each new entry in its place.
pub fn link<const DIM: usize>(rows: &mut Arena<DIM>, changes: &[Change])
    requires links { All (λ c. c.link ≤ DIM) changes.now }
    requires live { All (λ c. IsLive rows.old c.dart) changes.now }
    ensures rows { rows.new.rows ≡ linked changes.now rows.old.rows }
    ensures spare { rows.new.spare ≡ rows.old.spare }
    ensures room { rows.new.room ≡ rows.old.room }
{
    for change in changes {
        rows.set_live_entry(change.dart, change.link, change.new);
    }
}

/// Puts each old entry back in its place, the last one first.
pub fn unlink<const DIM: usize>(rows: &mut Arena<DIM>, changes: &[Change])
    requires links { All (λ c. c.link ≤ DIM) changes.now }
    ensures rows { rows.new.rows ≡ unlinked changes.now rows.old.rows }
    ensures spare { rows.new.spare ≡ rows.old.spare }
    ensures room { rows.new.room ≡ rows.old.room }
{
    for index in (0..changes.len()).rev() {
        let change = &changes[index];
        rows.set_entry(change.dart, change.link, change.old);
    }
}
