ghost use Rattle.std.specs.Prelude.{◌≡◌, ◌≢◌, ℕ, ◌↔◌, ◌⊎◌, length, take, slice_index, Contains, IfOk, OnOk, All, IsNone, IfSome};
ghost use Rattle.std.specs.List.Sorted.{IsStrictlyIncreasing};
ghost use Rattle.map_defs.specs.Rows.{links_of};
ghost use Rattle.map_defs.specs.LinkWords.{through, IsWithin};
ghost use Rattle.map_defs.specs.Cells.{InOrbit, Leads};
ghost use Rattle.cell_walk.specs.Visits.{IsDartAdded, IsVisited, IsClosed};
ghost use Rattle.cell_walk.specs.Ways.{IsLink, IsCourse};

use crate::found::Found;
use crate::rounds::round;
use crate::seen::{Few, Seen};
use crate::ways::{Course, course_along, go_round};
use link_rows::{Links, Row};
use map_kind::{Dart, Kind, LinkWord};
use std::alloc::{AllocError, Global};

/// The orbit of a dart under some words, ascending: the dart itself, and each dart to which a word leads from a dart of
/// the orbit. It costs the size of the orbit, for each word, times a logarithm.
///
/// The words' links are links of the map. Where the words are closed under inverses, this is the textbook's orbit.
pub fn orbit<K: Kind, const DIM: usize>(
    alloc: Global,
    links: &Links<K, DIM>,
    words: &[LinkWord],
    dart: Dart,
) -> Result<Vec<Dart>, AllocError>
    requires { All (IsWithin DIM) words.now }
    ensures members { IfOk result (λ orbit. (y : ℕ)
        → Contains orbit.items y ↔ InOrbit (Leads (links_of links.now.rows) (Contains words.now)) dart y) }
    ensures ascending { IfOk result (λ orbit. IsStrictlyIncreasing orbit.items) }
{
    match course_along::<K>(words) {
        Course::Round(ways) => round(alloc, links, &ways, dart),
        course => walked(alloc, links, words, &course, dart),
    }
}

/// The orbit of a dart under some words, ascending, found by a walk that goes so along them.
pub(crate) fn walked<K: Kind, const DIM: usize>(
    alloc: Global,
    links: &Links<K, DIM>,
    words: &[LinkWord],
    course: &Course,
    dart: Dart,
) -> Result<Vec<Dart>, AllocError>
    requires within { All (IsWithin DIM) words.now }
    requires course { IsCourse K.kind words.now course.now }
    ensures members { IfOk result (λ orbit. (y : ℕ)
        → Contains orbit.items y ↔ InOrbit (Leads (links_of links.now.rows) (Contains words.now)) dart y) }
    ensures ascending { IfOk result (λ orbit. IsStrictlyIncreasing orbit.items) }
{
    let mut found = Found::<Few>::new(alloc);
    walk(links, words, course, dart, &mut found)?;
    Ok(found.into_ascending())
}

/// The darts of the orbits of some darts under some words, ascending, each once. It costs the number of these darts, for
/// each word, times a logarithm, whether they lie in one orbit or in many.
///
/// The words' links are links of the map.
pub fn orbits_of<K: Kind, const DIM: usize>(
    alloc: Global,
    links: &Links<K, DIM>,
    words: &[LinkWord],
    darts: &[Dart],
) -> Result<Vec<Dart>, AllocError>
    requires { All (IsWithin DIM) words.now }
    ensures members { IfOk result (λ orbits. (y : ℕ) → Contains orbits.items y
        ↔ ((d : ℕ) × Contains darts.now d × InOrbit (Leads (links_of links.now.rows) (Contains words.now)) d y)) }
    ensures ascending { IfOk result (λ orbits. IsStrictlyIncreasing orbits.items) }
{
    let course = course_along::<K>(words);
    let mut found = Found::<Few>::new(alloc);
    for dart in darts {
        walk_unless(links, words, &course, *dart, &mut found)?;
    }
    Ok(found.into_ascending())
}

/// Finds the orbit of a dart, besides what was found before, unless the dart was.
fn walk_unless<S: Seen, K: Kind, const DIM: usize>(
    links: &Links<K, DIM>,
    words: &[LinkWord],
    course: &Course,
    dart: Dart,
    found: &mut Found<S>,
) -> Result<(), AllocError>
    requires within { All (IsWithin DIM) words.now }
    requires course { IsCourse K.kind words.now course.now }
    requires closed { IsClosed (Leads (links_of links.now.rows) (Contains words.now)) found.old }
    ensures { OnOk result ((y : ℕ)
        → Contains found.new y ↔ (Contains found.old y ⊎ InOrbit (Leads (links_of links.now.rows) (Contains words.now)) dart y)) }
{
    if found.contains(dart) {
        return Ok(());
    }
    walk(links, words, course, dart, found)
}

/// Finds the orbit of a dart that was not found before, besides what was. Where a word leads from a dart found before, it
/// led to one.
pub(crate) fn walk<S: Seen, K: Kind, const DIM: usize>(
    links: &Links<K, DIM>,
    words: &[LinkWord],
    course: &Course,
    dart: Dart,
    found: &mut Found<S>,
) -> Result<(), AllocError>
    requires within { All (IsWithin DIM) words.now }
    requires course { IsCourse K.kind words.now course.now }
    requires closed { IsClosed (Leads (links_of links.now.rows) (Contains words.now)) found.old }
    requires fresh { Contains found.old dart → ⊥ }
    ensures members { OnOk result ((y : ℕ)
        → Contains found.new y ↔ (Contains found.old y ⊎ InOrbit (Leads (links_of links.now.rows) (Contains words.now)) dart y)) }
    ensures before { OnOk result (take (length found.old) found.new ≡ found.old) }
{
    match course {
        Course::Round(ways) => go_round(links, ways, dart, found),
        Course::Links => spread_links(links, words, dart, found),
        Course::Words => spread(links, words, dart, found),
    }
}

/// Finds the orbit of a dart that was not found before, by looking where all words lead from each dart that is found.
fn spread<S: Seen, K: Kind, const DIM: usize>(
    links: &Links<K, DIM>,
    words: &[LinkWord],
    dart: Dart,
    found: &mut Found<S>,
) -> Result<(), AllocError>
    requires within { All (IsWithin DIM) words.now }
    requires closed { IsClosed (Leads (links_of links.now.rows) (Contains words.now)) found.old }
    requires fresh { Contains found.old dart → ⊥ }
    ensures members { OnOk result ((y : ℕ)
        → Contains found.new y ↔ (Contains found.old y ⊎ InOrbit (Leads (links_of links.now.rows) (Contains words.now)) dart y)) }
    ensures before { OnOk result (take (length found.old) found.new ≡ found.old) }
{
    let mut next = found.len();
    found.put(dart)?;
    while next < found.len() {
        visit(links, words, found.at(next), found)?;
        next += 1;
    }
    Ok(())
}

/// Finds the orbit of a dart that was not found before, by looking where all words, of one link each, lead from each dart that is found.
fn spread_links<S: Seen, K: Kind, const DIM: usize>(
    links: &Links<K, DIM>,
    words: &[LinkWord],
    dart: Dart,
    found: &mut Found<S>,
) -> Result<(), AllocError>
    requires within { All (IsWithin DIM) words.now }
    requires single { All IsLink words.now }
    requires closed { IsClosed (Leads (links_of links.now.rows) (Contains words.now)) found.old }
    requires fresh { Contains found.old dart → ⊥ }
    ensures members { OnOk result ((y : ℕ)
        → Contains found.new y ↔ (Contains found.old y ⊎ InOrbit (Leads (links_of links.now.rows) (Contains words.now)) dart y)) }
    ensures before { OnOk result (take (length found.old) found.new ≡ found.old) }
{
    let mut place = found.len();
    found.put(dart)?;
    while place < found.len() {
        visit_links(links, words, found.at(place), found)?;
        place += 1;
    }
    Ok(())
}

/// Finds the darts to which the words lead from a dart. Their first links are read from its row.
pub(crate) fn visit<S: Seen, K: Kind, const DIM: usize>(
    links: &Links<K, DIM>,
    words: &[LinkWord],
    dart: Dart,
    found: &mut Found<S>,
) -> Result<(), AllocError>
    requires { All (IsWithin DIM) words.now }
    ensures { OnOk result (IsVisited (links_of links.now.rows) (Contains words.now) dart found.old found.new) }
{
    links.see_sound();
    let Some(row) = links.row(dart) else {
        return Ok(());
    };
    for word in words {
        add(number_from(links, row, *word), found)?;
    }
    Ok(())
}

/// The number of the dart to which a word leads from the dart whose row this is; 0 where a link on its way is free.
#[inline(always)]
pub(crate) fn number_from<K: Kind, const DIM: usize>(
    links: &Links<K, DIM>,
    row: &Row<DIM>,
    word: LinkWord,
) -> u32
    requires within { IsWithin DIM word }
    requires whose { (dart : ℕ) × ((link : ℕ) → slice_index row.now link ≡ links_of links.now.rows link dart) }
    ensures { (dart : ℕ) → ((link : ℕ) → slice_index row.now link ≡ links_of links.now.rows link dart)
        → result ≡ through (links_of links.now.rows) word dart }
{
    links.see_sound();
    let Some(reached) = Dart::new(row.entry(word.first)) else {
        return 0;
    };
    match word.second {
        Some(second) => links.live_row(reached).entry(second),
        None => reached.number(),
    }
}

/// Finds the darts to which words of one link each lead from a dart: all are read from its row.
fn visit_links<S: Seen, K: Kind, const DIM: usize>(
    links: &Links<K, DIM>,
    words: &[LinkWord],
    dart: Dart,
    found: &mut Found<S>,
) -> Result<(), AllocError>
    requires within { All (IsWithin DIM) words.now }
    requires single { All IsLink words.now }
    ensures { OnOk result (IsVisited (links_of links.now.rows) (Contains words.now) dart found.old found.new) }
{
    links.see_sound();
    let Some(row) = links.row(dart) else {
        return Ok(());
    };
    for word in words {
        add(row.entry(word.first), found)?;
    }
    Ok(())
}

/// Adds the dart of a number, if it is the number of a dart that was not found before.
fn add<S: Seen>(number: u32, found: &mut Found<S>) -> Result<(), AllocError>
    ensures none { OnOk result (number ≡ 0 → found.new ≡ found.old) }
    ensures dart { OnOk result (number ≢ 0 → IsDartAdded found.old found.new number) }
{
    let Some(dart) = found.unmet(number) else {
        return Ok(());
    };
    found.put(dart)
}

/// The dart to which a word leads; none exactly where a link on its way is free. The word's links are links of the map.
#[inline(always)]
pub fn follow<K: Kind, const DIM: usize>(
    links: &Links<K, DIM>,
    word: LinkWord,
    dart: Dart,
) -> Option<Dart>
    requires { IsWithin DIM word }
    ensures free { IsNone result ↔ (through (links_of links.now.rows) word dart ≡ 0) }
    ensures leads { IfSome result (λ other. other ≡ through (links_of links.now.rows) word dart) }
{
    let reached = links.link(dart, word.first)?;
    match word.second {
        Some(second) => links.link(reached, second),
        None => Some(reached),
    }
}
