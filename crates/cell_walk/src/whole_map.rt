ghost use Rattle.std.specs.Prelude.{◌≡◌, ℕ, ◌+◌, ◌<◌, ◌≤◌, ◌↔◌, length, All, Contains, IfOk, OnOk, map};
ghost use Rattle.flat_lists.specs.Cutting.{cut, AreEnds};
ghost use Rattle.std.specs.List.{range_with_len};
ghost use Rattle.std.specs.List.Sorted.{IsStrictlyIncreasing};
ghost use Rattle.map_defs.specs.Rows.{IsLive, IsSound, links_of};
ghost use Rattle.map_defs.specs.LinkWords.{one_link, IsWithin};
ghost use Rattle.map_defs.specs.Cells.{Leads, NamesCell, NamesComponent};
ghost use Rattle.map_defs.specs.Counts.{AreCounts};
ghost use Rattle.cell_walk.specs.Surveys.{TurnsBack, IsLeast, IsSurveyed, AreSurveyed};
ghost use Rattle.cell_walk.specs.Marks.{IsMarked, IsMarkedMore, IsOrbitFound};
ghost use Rattle.cell_walk.specs.Sweeps.{IsSweep};
ghost use Rattle.cell_walk.specs.CellLists.{AreCellsOf, AreOrbitsOf};
ghost use Rattle.cell_walk.specs.Ways.{IsCourse};

use crate::edges::surface_edges;
use crate::found::Found;
use crate::marks::clear_marks;
use crate::orbits::walk;
use crate::rings::{mark_again, mark_turns};
use crate::seen::Marks;
use crate::spread::mark_spread;
use crate::sweep::{Sweep, sweep_along};
use crate::ways::{Course, course_along};
use flat_lists::Lists;
use link_rows::Links;
use map_kind::{Dart, Kind, LinkWord};
use std::alloc::{AllocError, Global};

/// The least darts of all cells of dimension `dim`, by which the cells are named, ascending.
pub fn cells<K: Kind, const DIM: usize>(
    alloc: Global,
    links: &Links<K, DIM>,
    dim: usize,
) -> Result<Vec<Dart>, AllocError>
    requires { dim ≤ DIM }
    ensures members { IfOk result (λ cells. (d : ℕ)
        → Contains cells.items d ↔ (IsLive links.now.rows d × NamesCell K.kind (links_of links.now.rows) dim d)) }
    ensures ascending { IfOk result (λ cells. IsStrictlyIncreasing cells.items) }
{
    cells_with(
        alloc,
        links,
        dim,
        &mut Vec::new(alloc),
        &mut Vec::new(alloc),
    )
}

/// The cells of a dimension, by their least darts, ascending.
#[derive(Drop)]
pub struct CellLists {
    /// The least dart of each cell.
    pub least: Vec<Dart>,
    /// The darts of each cell, ascending, in the order of the cells.
    pub darts: Lists<Dart>,
}

/// All cells of dimension `dim`, each with its darts. It is linear in the darts that were made, and sorts the darts of each
/// cell.
pub fn cell_lists<K: Kind, const DIM: usize>(
    alloc: Global,
    links: &Links<K, DIM>,
    dim: usize,
) -> Result<CellLists, AllocError>
    requires { dim ≤ DIM }
    ensures members { IfOk result (λ cells. (d : ℕ)
        → Contains cells.least.items d ↔ (IsLive links.now.rows d × NamesCell K.kind (links_of links.now.rows) dim d)) }
    ensures ascending { IfOk result (λ cells. IsStrictlyIncreasing cells.least.items) }
    ensures darts { IfOk result (λ cells. AreCellsOf K.kind (links_of links.now.rows) dim cells.least.items cells.darts) }
{
    let words = K::words(alloc, links.dimension(), dim)?;
    orbit_lists(alloc, links, &words)
}

/// The same, with the memory of an earlier walk.
fn cells_with<K: Kind, const DIM: usize>(
    alloc: Global,
    links: &Links<K, DIM>,
    dim: usize,
    marks: &mut Vec<bool>,
    queue: &mut Vec<Dart>,
) -> Result<Vec<Dart>, AllocError>
    requires { dim ≤ DIM }
    ensures members { IfOk result (λ cells. (d : ℕ)
        → Contains cells.items d ↔ (IsLive links.now.rows d × NamesCell K.kind (links_of links.now.rows) dim d)) }
    ensures ascending { IfOk result (λ cells. IsStrictlyIncreasing cells.items) }
{
    // Where the laws hold, an edge of a surface has four darts at most.
    if links.dimension() == 2 && dim == 1 {
        if let Some(edges) = surface_edges(alloc, links)? {
            return Ok(edges);
        }
    }
    let words = K::words(alloc, links.dimension(), dim)?;
    least_darts(alloc, links, &words, marks, queue)
}

/// The least darts of all components, by which the components are named, ascending.
pub fn components<K: Kind, const DIM: usize>(
    alloc: Global,
    links: &Links<K, DIM>,
) -> Result<Vec<Dart>, AllocError>
    ensures members { IfOk result (λ components. (d : ℕ)
        → Contains components.items d ↔ (IsLive links.now.rows d × NamesComponent (links_of links.now.rows) d)) }
    ensures ascending { IfOk result (λ components. IsStrictlyIncreasing components.items) }
{
    components_with(alloc, links, &mut Vec::new(alloc), &mut Vec::new(alloc))
}

/// The same, with the memory of an earlier walk.
fn components_with<K: Kind, const DIM: usize>(
    alloc: Global,
    links: &Links<K, DIM>,
    marks: &mut Vec<bool>,
    queue: &mut Vec<Dart>,
) -> Result<Vec<Dart>, AllocError>
    ensures members { IfOk result (λ components. (d : ℕ)
        → Contains components.items d ↔ (IsLive links.now.rows d × NamesComponent (links_of links.now.rows) d)) }
    ensures ascending { IfOk result (λ components. IsStrictlyIncreasing components.items) }
{
    let words = single_words(alloc, links.dimension())?;
    least_darts(alloc, links, &words, marks, queue)
}

/// How many live darts, cells of dimensions 0 to `DIM`, and components there are, in this order.
pub fn counts<K: Kind, const DIM: usize>(
    alloc: Global,
    links: &Links<K, DIM>,
) -> Result<Vec<u64>, AllocError>
    ensures { IfOk result (λ counts. AreCounts K.kind DIM links.now.rows counts.items) }
{
    let mut marks = Vec::new(alloc);
    let mut queue = Vec::new(alloc);
    let mut counts = Vec::new(alloc);
    counts.push(u64::from(links.live_count()))?;
    for dim in 0..links.dimension() + 1 {
        let cells = cells_with(alloc, links, dim, &mut marks, &mut queue)?;
        counts.push(cells.len() as u64)?;
    }
    let components = components_with(alloc, links, &mut marks, &mut queue)?;
    counts.push(components.len() as u64)?;
    Ok(counts)
}

/// The words of one link each, for the links 0 to `dim`.
fn single_words(alloc: Global, dim: usize) -> Result<Vec<LinkWord>, AllocError>
    requires { dim ≤ 8 }
    ensures { IfOk result (λ words. words.items ≡ map one_link (range_with_len 0 (dim + 1))) }
{
    (0..dim + 1).map(|link| LinkWord::one(link)).collect(alloc)
}

/// The least darts of all orbits under words whose steps can be taken back, ascending.
fn least_darts<K: Kind, const DIM: usize>(
    alloc: Global,
    links: &Links<K, DIM>,
    words: &[LinkWord],
    marks: &mut Vec<bool>,
    queue: &mut Vec<Dart>,
) -> Result<Vec<Dart>, AllocError>
    requires within { All (IsWithin DIM) words.now }
    requires turns { TurnsBack (Leads (links_of links.now.rows) (Contains words.now)) }
    ensures members { IfOk result (λ darts. (d : ℕ)
        → Contains darts.items d ↔ (IsLive links.now.rows d × IsLeast (Leads (links_of links.now.rows) (Contains words.now)) d)) }
    ensures ascending { IfOk result (λ darts. IsStrictlyIncreasing darts.items) }
{
    links.see_sound();
    clear_marks(marks, links.made())?;
    let sweep = sweep_along::<K>(words);
    make_room(&sweep, queue, links.made())?;
    let marks = marks.as_mut_slice();
    let mut least = Vec::new(alloc);
    for number in 1..links.made() + 1 {
        let dart = Dart::new(number).unwrap();
        take_least(links, words, &sweep, dart, marks, queue, &mut least)?;
    }
    Ok(least)
}

/// Makes room for the darts of a whole map, if those of an orbit are listed.
fn make_room(sweep: &Sweep, queue: &mut Vec<Dart>, made: u32) -> Result<(), AllocError> {
    match sweep {
        Sweep::Turns(_, _) | Sweep::Again(_, _) => Ok(()),
        _ => {
            queue.clear();
            queue.reserve(made as usize)
        }
    }
}

/// Lists a live dart as the least of its orbit and marks the orbit, unless the orbit of a lesser dart has it.
#[inline(always)]
fn take_least<K: Kind, const DIM: usize>(
    links: &Links<K, DIM>,
    words: &[LinkWord],
    sweep: &Sweep,
    dart: Dart,
    marks: &mut [bool],
    queue: &mut Vec<Dart>,
    least: &mut Vec<Dart>,
) -> Result<(), AllocError>
    requires sound { IsSound K.kind DIM links.now.rows }
    requires within { All (IsWithin DIM) words.now }
    requires sweep { IsSweep K.kind words.now sweep.now }
    requires turns { TurnsBack (Leads (links_of links.now.rows) (Contains words.now)) }
    requires place { dart < length marks.old }
    requires places { length links.now.rows ≤ length marks.old }
    requires before { AreSurveyed (Leads (links_of links.now.rows) (Contains words.now)) (IsLive links.now.rows)
        dart marks.old least.old.items }
    ensures places { OnOk result (length marks.new ≡ length marks.old) }
    ensures surveyed { OnOk result (AreSurveyed (Leads (links_of links.now.rows) (Contains words.now)) (IsLive links.now.rows)
        (dart + 1) marks.new least.new.items) }
{
    if marks[dart.number() as usize] {
        return Ok(());
    }
    if !links.is_live(dart) {
        return Ok(());
    }
    least.push(dart)?;
    mark_orbit(links, words, sweep, dart, marks, queue)
}

/// Marks the orbit of a live dart that was not marked.
fn mark_orbit<K: Kind, const DIM: usize>(
    links: &Links<K, DIM>,
    words: &[LinkWord],
    sweep: &Sweep,
    dart: Dart,
    marks: &mut [bool],
    queue: &mut Vec<Dart>,
) -> Result<(), AllocError>
    requires within { All (IsWithin DIM) words.now }
    requires sweep { IsSweep K.kind words.now sweep.now }
    requires live { IsLive links.now.rows dart }
    requires places { length links.now.rows ≤ length marks.old }
    requires nothing { IsMarked marks.old 0 }
    requires fresh { IsMarked marks.old dart → ⊥ }
    ensures { OnOk result (IsMarkedMore (IsOrbitFound (Leads (links_of links.now.rows) (Contains words.now)) dart) marks.old marks.new) }
{
    match sweep {
        Sweep::Turns(forth, back) => {
            mark_turns(links, *forth, *back, dart, marks);
            Ok(())
        }
        Sweep::Again(forth, back) => {
            mark_again(links, *forth, *back, dart, marks);
            Ok(())
        }
        _ => mark_spread(links, words, sweep, dart, marks, queue),
    }
}

/// All orbits under words whose steps can be taken back, each with its darts.
fn orbit_lists<K: Kind, const DIM: usize>(
    alloc: Global,
    links: &Links<K, DIM>,
    words: &[LinkWord],
) -> Result<CellLists, AllocError>
    requires within { All (IsWithin DIM) words.now }
    requires turns { TurnsBack (Leads (links_of links.now.rows) (Contains words.now)) }
    ensures members { IfOk result (λ orbits. (d : ℕ)
        → Contains orbits.least.items d ↔ (IsLive links.now.rows d × IsLeast (Leads (links_of links.now.rows) (Contains words.now)) d)) }
    ensures ascending { IfOk result (λ orbits. IsStrictlyIncreasing orbits.least.items) }
    ensures darts { IfOk result (λ orbits. AreOrbitsOf (Leads (links_of links.now.rows) (Contains words.now)) orbits.least.items orbits.darts) }
{
    let made = links.made();
    let mut found = Found::<Marks>::in_map(alloc, made)?;
    let course = course_along::<K>(words);
    let mut least = Vec::new(alloc);
    let mut ends = Vec::new(alloc);
    for number in 1..made + 1 {
        take_orbit(
            links,
            words,
            &course,
            Dart::new(number).unwrap(),
            &mut found,
            &mut least,
            &mut ends,
        )?;
    }
    Ok(CellLists {
        least,
        darts: Lists::from_parts(found.into_darts(), ends),
    })
}

/// Lists a live dart as the least of its orbit, finds its orbit, ascending, and lists where that ends among all that was
/// found, unless the orbit of a lesser dart has the dart.
fn take_orbit<K: Kind, const DIM: usize>(
    links: &Links<K, DIM>,
    words: &[LinkWord],
    course: &Course,
    dart: Dart,
    found: &mut Found<Marks>,
    least: &mut Vec<Dart>,
    ends: &mut Vec<usize>,
) -> Result<(), AllocError>
    requires sound { IsSound K.kind DIM links.now.rows }
    requires within { All (IsWithin DIM) words.now }
    requires course { IsCourse K.kind words.now course.now }
    requires turns { TurnsBack (Leads (links_of links.now.rows) (Contains words.now)) }
    requires before { IsSurveyed (Leads (links_of links.now.rows) (Contains words.now)) (IsLive links.now.rows)
        dart found.old least.old.items }
    requires ends { AreEnds 0 ends.old.items (length found.old) }
    requires lists { AreOrbitsOf (Leads (links_of links.now.rows) (Contains words.now)) least.old.items (cut 0 found.old ends.old.items) }
    ensures surveyed { OnOk result (IsSurveyed (Leads (links_of links.now.rows) (Contains words.now)) (IsLive links.now.rows)
        (dart + 1) found.new least.new.items) }
    ensures ends { OnOk result (AreEnds 0 ends.new.items (length found.new)) }
    ensures lists { OnOk result (AreOrbitsOf (Leads (links_of links.now.rows) (Contains words.now)) least.new.items (cut 0 found.new ends.new.items)) }
{
    if found.contains(dart) {
        return Ok(());
    }
    if !links.is_live(dart) {
        return Ok(());
    }
    let known = found.len();
    walk(links, words, course, dart, found)?;
    found.sort_since(known);
    least.push(dart)?;
    ends.push(found.len())?;
    Ok(())
}
