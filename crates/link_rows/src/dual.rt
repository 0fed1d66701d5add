//! The dual of a combinatorial map, made on its rows two darts at a time, which the last link joins. Links need not lead
//! back meanwhile.
ghost use Rattle.std.specs.Prelude.{◌≡◌, ◌≢◌, ℕ, ◌-◌, ◌<◌, ◌≤◌, None};
ghost use Rattle.dart_arena.specs.Stock.{IsLive, row_at};
ghost use Rattle.map_defs.specs.Kind.{beta};
ghost use Rattle.map_defs.specs.Rows.{links_of, AreWide, IsSound};
ghost use Rattle.map_defs.specs.Rows.{IsLive as IsLiveIn};
ghost use Rattle.map_defs.specs.Laws.{Laws};
ghost use Rattle.map_defs.specs.Edits.{with_entry};
ghost use Rattle.map_defs.specs.Dual.{IsDualable};
ghost use Rattle.link_rows.specs.DualLinks.{dual_link};
ghost use Rattle.link_rows.specs.Turning.{HaveSameDarts, AreTurned, AreExchanged};

use dart_arena::Arena;
use map_kind::{Beta, Dart, Kind};

/// Makes the links of each dart those of the dual.
pub fn dualize<const DIM: usize>(rows: &mut Arena<DIM>)
    requires low { 2 ≤ DIM }
    requires sound { IsSound beta DIM rows.old.rows }
    requires laws { Laws beta (links_of rows.old.rows) }
    requires dualable { IsDualable beta DIM (links_of rows.old.rows) (IsLiveIn rows.old.rows) }
    ensures links { (i d : ℕ) → i ≤ DIM → links_of rows.new.rows i d ≡ dual_link beta DIM (links_of rows.old.rows) i d }
    ensures darts { HaveSameDarts DIM rows.old.rows rows.new.rows }
    ensures spare { rows.new.spare ≡ rows.old.spare }
    ensures room { rows.new.room ≡ rows.old.room }
{
    for number in 0..rows.made() {
        turn_dart(rows, Dart::new(number + 1).unwrap());
    }
}

/// Makes the links of a dart, and of the one at its last link, those of the dual, if that one has the greater number: so
/// each two are turned once, and a dart that is not live, whose links are free, is passed over.
fn turn_dart<const DIM: usize>(rows: &mut Arena<DIM>, dart: Dart)
    requires low { 2 ≤ DIM }
    requires nothing { row_at rows.old 0 ≡ None }
    requires wide { AreWide DIM rows.old.rows }
    requires back { links_of rows.old.rows DIM dart ≢ 0
        → links_of rows.old.rows DIM (links_of rows.old.rows DIM dart) ≡ dart }
    ensures turned { dart < links_of rows.old.rows DIM dart
        → AreTurned DIM (links_of rows.old.rows) (links_of rows.new.rows) dart (links_of rows.old.rows DIM dart) }
    ensures same { links_of rows.old.rows DIM dart ≤ dart → rows.new.rows ≡ rows.old.rows }
    ensures darts { HaveSameDarts DIM rows.old.rows rows.new.rows }
    ensures spare { rows.new.spare ≡ rows.old.spare }
    ensures room { rows.new.room ≡ rows.old.room }
{
    let other = rows.entry(dart, DIM);
    if dart.number() < other {
        turn_pair(rows, dart, Dart::new(other).unwrap());
    }
}

/// Makes the links of two live darts, each at the last link of the other, those of the dual.
fn turn_pair<const DIM: usize>(rows: &mut Arena<DIM>, one: Dart, other: Dart)
    requires low { 2 ≤ DIM }
    requires nothing { row_at rows.old 0 ≡ None }
    requires wide { AreWide DIM rows.old.rows }
    requires apart { one ≢ other }
    requires there { links_of rows.old.rows DIM one ≡ other }
    requires back { links_of rows.old.rows DIM other ≡ one }
    ensures turned { AreTurned DIM (links_of rows.old.rows) (links_of rows.new.rows) one other }
    ensures darts { HaveSameDarts DIM rows.old.rows rows.new.rows }
    ensures spare { rows.new.spare ≡ rows.old.spare }
    ensures room { rows.new.room ≡ rows.old.room }
{
    set_first(rows, one);
    set_first(rows, other);
    exchange_between(rows, one, other);
}

/// Makes link 0 of a dart that of the dual: the last but one backwards, and then the last.
fn set_first<const DIM: usize>(rows: &mut Arena<DIM>, dart: Dart)
    requires low { 2 ≤ DIM }
    requires nothing { row_at rows.old 0 ≡ None }
    ensures rows { rows.new.rows ≡ with_entry rows.old.rows dart 0 (dual_link beta DIM (links_of rows.old.rows) 0 dart) }
    ensures spare { rows.new.spare ≡ rows.old.spare }
    ensures room { rows.new.room ≡ rows.old.room }
{
    let near = rows.entry(dart, Beta::inverse(DIM - 1));
    let first = last_entry(rows, near);
    rows.set_entry(dart, 0, first);
}

/// The last entry of the dart with a number, 0 for none.
fn last_entry<const DIM: usize>(rows: &Arena<DIM>, number: u32) -> u32
    requires { row_at rows.now 0 ≡ None }
    ensures { result ≡ links_of rows.now.rows DIM number }
{
    match Dart::new(number) {
        Some(dart) => rows.entry(dart, DIM),
        None => 0,
    }
}

/// Exchanges each entry of one live dart between the first and the last with that of another, counted from the other end.
fn exchange_between<const DIM: usize>(rows: &mut Arena<DIM>, one: Dart, other: Dart)
    requires low { 2 ≤ DIM }
    requires nothing { row_at rows.old 0 ≡ None }
    requires wide { AreWide DIM rows.old.rows }
    requires apart { one ≢ other }
    requires one_lives { IsLive rows.old one }
    requires other_lives { IsLive rows.old other }
    ensures exchanged { AreExchanged DIM (links_of rows.old.rows) (links_of rows.new.rows) one other }
    ensures darts { HaveSameDarts DIM rows.old.rows rows.new.rows }
    ensures spare { rows.new.spare ≡ rows.old.spare }
    ensures room { rows.new.room ≡ rows.old.room }
{
    for link in 1..DIM {
        exchange(rows, one, other, link);
    }
}

/// Exchanges an entry of one dart with that of another dart, counted from the other end.
fn exchange<const DIM: usize>(rows: &mut Arena<DIM>, one: Dart, other: Dart, link: usize)
    requires link { link ≤ DIM }
    ensures rows { rows.new.rows
        ≡ with_entry (with_entry rows.old.rows one link (links_of rows.old.rows (DIM - link) other))
        other (DIM - link) (links_of rows.old.rows link one) }
    ensures spare { rows.new.spare ≡ rows.old.spare }
    ensures room { rows.new.room ≡ rows.old.room }
{
    let of_one = rows.entry(one, link);
    let of_other = rows.entry(other, DIM - link);
    rows.set_entry(one, link, of_other);
    rows.set_entry(other, DIM - link, of_one);
}
