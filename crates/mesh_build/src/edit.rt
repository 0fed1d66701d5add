ghost use Rattle.std.specs.Prelude.{◌≡◌, ◌==◌, true, false, ◌+◌, ◌-◌, ◌*◌, ◌≤◌, ◌<◌, ◌++◌, length, IfOk, OnOk};
ghost use Rattle.map_defs.specs.Polygon.{per_side};
ghost use Rattle.mesh_build.specs.Sides.{sides_view};
ghost use Rattle.mesh_laws.specs.Sides.{kind_of, side_of, IsSewn};
ghost use Rattle.map_defs.specs.Kind.{alpha, beta};
ghost use Rattle.mesh_laws.specs.SideLinks.{entry_change, entry_changes, start_across, finish_across, start_entries, finish_entries, dart_entries, mesh_edit};
ghost use Rattle.mesh_build.specs.EntriesView.{entries_view};

use crate::sew::Sewn;
use link_rows::{Change, MADE_MAX, PlainEdit};
use map_kind::Dart;
use std::alloc::{AllocError, Global};

/// The links 0, 1 and 2 of a dart, 0 where one is free.
#[derive(Clone, Copy)]
pub struct Entries {
    pub zeroth: u32,
    pub first: u32,
    pub second: u32,
}

/// The edit that makes the darts of these sides, two for each side or one in an oriented map, and their links.
pub fn edit_of(alloc: Global, oriented: bool, sewn: &Sewn) -> Result<PlainEdit, AllocError>
    requires sewn { IsSewn oriented (sides_view sewn.now.sides) sewn.now.partners.items }
    requires few { per_side (kind_of oriented) * length sewn.now.sides.items ≤ MADE_MAX }
    ensures { IfOk result (λ edit. edit ≡ mesh_edit (kind_of oriented) (sides_view sewn.now.sides) sewn.now.partners.items) }
{
    let births = per_side(oriented) * sewn.sides.len() as u32;
    let mut changes = Vec::with_capacity(alloc, 3 * births as usize)?;
    for number in 1..births + 1 {
        push_changes(
            &mut changes,
            Dart::new(number).unwrap(),
            dart_entries(oriented, sewn, number),
        )?;
    }
    Ok(PlainEdit {
        births,
        deaths: Vec::new(alloc),
        changes,
    })
}

/// How many darts a side has.
pub fn per_side(oriented: bool) -> u32
    ensures { result ≡ per_side (kind_of oriented) }
{
    if oriented { 1 } else { 2 }
}

/// Appends the changes of a dart's links that are not free.
fn push_changes(changes: &mut Vec<Change>, dart: Dart, entries: Entries) -> Result<(), AllocError>
    ensures { OnOk result (changes.new.items ≡ changes.old.items ++ entry_changes dart (entries_view entries)) }
{
    push_change(changes, dart, 0, entries.zeroth)?;
    push_change(changes, dart, 1, entries.first)?;
    push_change(changes, dart, 2, entries.second)
}

/// Appends the change of a link, unless it is free.
fn push_change(
    changes: &mut Vec<Change>,
    dart: Dart,
    link: usize,
    new: u32,
) -> Result<(), AllocError>
    ensures { OnOk result (changes.new.items ≡ changes.old.items ++ entry_change dart link new) }
{
    if new == 0 {
        return Ok(());
    }
    changes.push(Change::new(dart, link, 0, new))?;
    Ok(())
}

/// The links of a dart.
pub fn dart_entries(oriented: bool, sewn: &Sewn, number: u32) -> Entries
    requires sewn { IsSewn oriented (sides_view sewn.now.sides) sewn.now.partners.items }
    requires few { per_side (kind_of oriented) * length sewn.now.sides.items ≤ MADE_MAX }
    requires low { 1 ≤ number }
    requires high { number ≤ per_side (kind_of oriented) * length sewn.now.sides.items }
    ensures { entries_view result ≡ dart_entries (kind_of oriented) (sides_view sewn.now.sides) sewn.now.partners.items number }
{
    if oriented {
        single_entries(sewn, number - 1)
    } else if number % 2 == 1 {
        first_entries(sewn, (number - 1) / 2)
    } else {
        second_entries(sewn, (number - 1) / 2)
    }
}

/// The links of the one dart of a side, in an oriented map.
fn single_entries(sewn: &Sewn, number: u32) -> Entries
    requires sewn { IsSewn true (sides_view sewn.now.sides) sewn.now.partners.items }
    requires few { length sewn.now.sides.items ≤ MADE_MAX }
    requires within { number < length sewn.now.sides.items }
    ensures { entries_view result ≡ start_entries beta (sides_view sewn.now.sides) sewn.now.partners.items number }
{
    let side = sewn.sides[number as usize];
    Entries {
        zeroth: side.previous + 1,
        first: side.next + 1,
        second: single_across(sewn, number),
    }
}

fn single_across(sewn: &Sewn, number: u32) -> u32
    requires sewn { IsSewn true (sides_view sewn.now.sides) sewn.now.partners.items }
    requires few { length sewn.now.sides.items ≤ MADE_MAX }
    requires within { number < length sewn.now.sides.items }
    ensures { result ≡ start_across beta (sides_view sewn.now.sides) sewn.now.partners.items number }
{
    match sewn.partners[number as usize] {
        None => 0,
        Some(partner) => partner + 1,
    }
}

/// Whether two sides start at one point.
fn start_together(sewn: &Sewn, number: u32, partner: u32) -> bool
    requires within { number < length sewn.now.sides.items }
    requires inside { partner < length sewn.now.sides.items }
    ensures { result ≡ ((side_of (sides_view sewn.now.sides) number).from == (side_of (sides_view sewn.now.sides) partner).from) }
{
    sewn.sides[number as usize].from == sewn.sides[partner as usize].from
}

/// The links of the dart at the start of a side.
fn first_entries(sewn: &Sewn, number: u32) -> Entries
    requires sewn { IsSewn false (sides_view sewn.now.sides) sewn.now.partners.items }
    requires few { 2 * length sewn.now.sides.items ≤ MADE_MAX }
    requires within { number < length sewn.now.sides.items }
    ensures { entries_view result ≡ start_entries alpha (sides_view sewn.now.sides) sewn.now.partners.items number }
{
    let side = sewn.sides[number as usize];
    Entries {
        zeroth: 2 * number + 2,
        first: 2 * side.previous + 2,
        second: first_across(sewn, number),
    }
}

fn first_across(sewn: &Sewn, number: u32) -> u32
    requires sewn { IsSewn false (sides_view sewn.now.sides) sewn.now.partners.items }
    requires few { 2 * length sewn.now.sides.items ≤ MADE_MAX }
    requires within { number < length sewn.now.sides.items }
    ensures { result ≡ start_across alpha (sides_view sewn.now.sides) sewn.now.partners.items number }
{
    match sewn.partners[number as usize] {
        None => 0,
        Some(partner) => {
            if start_together(sewn, number, partner) {
                2 * partner + 1
            } else {
                2 * partner + 2
            }
        }
    }
}

/// The links of the dart at the end of a side.
fn second_entries(sewn: &Sewn, number: u32) -> Entries
    requires sewn { IsSewn false (sides_view sewn.now.sides) sewn.now.partners.items }
    requires few { 2 * length sewn.now.sides.items ≤ MADE_MAX }
    requires within { number < length sewn.now.sides.items }
    ensures { entries_view result ≡ finish_entries (sides_view sewn.now.sides) sewn.now.partners.items number }
{
    let side = sewn.sides[number as usize];
    Entries {
        zeroth: 2 * number + 1,
        first: 2 * side.next + 1,
        second: second_across(sewn, number),
    }
}

fn second_across(sewn: &Sewn, number: u32) -> u32
    requires sewn { IsSewn false (sides_view sewn.now.sides) sewn.now.partners.items }
    requires few { 2 * length sewn.now.sides.items ≤ MADE_MAX }
    requires within { number < length sewn.now.sides.items }
    ensures { result ≡ finish_across (sides_view sewn.now.sides) sewn.now.partners.items number }
{
    match sewn.partners[number as usize] {
        None => 0,
        Some(partner) => {
            if start_together(sewn, number, partner) {
                2 * partner + 2
            } else {
                2 * partner + 1
            }
        }
    }
}
