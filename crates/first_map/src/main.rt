//! A first map: two squares are glued along a side, one of them is cut in two, the darts are walked, and the cut is taken
//! back. `docs/library.md` goes through it.
#![tactic(auto)]

ghost use Rattle.std.specs.Prelude.{◌≡◌, ◌↔◌, IsNone, IfSome, OnOk};
ghost use Rattle.map_defs.specs.Rows.{links_of};

use attr_rules::OrCopy;
use map_core::{Done, Map};
use map_kind::{Beta, Dart, Refusal, Refused, Value};
use std::alloc::{AllocError, Global};
use std::io;
use thiserror::Error;

/// Why the program ends early.
#[derive(Debug, Drop, Error)]
enum Fault {
    #[error("a change was refused: {0}")]
    Change(#[from] Refused),
    #[error("a question was refused: {0}")]
    Question(#[from] Refusal),
    #[error("out of memory")]
    NoMemory(#[from] AllocError),
    #[error("the text was not written: {0}")]
    Text(#[from] io::Error),
}

/// A combinatorial map of dimension 2, also known as half-edges. A dart is a side of a face and begins at a vertex. Link 1
/// leads to the next side of the face, link 0 to the one before, and link 2 to the same edge as a side of the face behind.
type Surface = Map<'static, Beta, OrCopy, 2>;

fn main(rt: HostRuntime) -> Result<(), Fault> {
    let alloc = rt.alloc();
    let mut surface = Surface::new(alloc, &OrCopy);
    glue_squares(alloc, &mut surface)?;
    set_areas(alloc, &mut surface)?;
    print_surface(&rt, alloc, &surface)?;
    show_refusal(&rt, alloc, &mut surface)?;
    show_cut(&rt, alloc, &mut surface)?;
    print_surface(&rt, alloc, &surface)
}

/// Makes two squares, of darts 1 to 4 and 5 to 8, and glues side 1 to side 5.
fn glue_squares(alloc: Global, surface: &mut Surface) -> Result<(), Refused> {
    let left = surface.polygon(alloc, 4)?;
    let right = surface.polygon(alloc, 4)?;
    surface.sew(alloc, 2, left.first_dart(), right.first_dart())?;
    Ok(())
}

/// Gives each face an area. The rule says what becomes of areas: where faces join they add up, and where a face is cut its
/// area is dealt out to the pieces.
fn set_areas(alloc: Global, surface: &mut Surface) -> Result<(), Refused> {
    surface.rule(alloc, 2, "sum", "share")?;
    surface.set(alloc, 2, 1, Value { a: 7, b: 0, c: 0 })?;
    surface.set(alloc, 2, 5, Value { a: 4, b: 0, c: 0 })?;
    Ok(())
}

/// Asks for what cannot be: dart 1 is glued at link 2 already.
fn show_refusal(rt: &impl Print, alloc: Global, surface: &mut Surface) -> io::Result<()> {
    match surface.sew(alloc, 2, 1, 3) {
        Ok(_) => println!(rt; "sewn"),
        Err(refused) => println!(rt; "refused: {refused}"),
    }
}

/// Sets a mark, cuts the left square, shows what stands then, and goes back to the mark. Where all of this went well,
/// darts, links, values and rules are as they were.
fn show_cut(rt: &impl Print, alloc: Global, surface: &mut Surface) -> Result<(), Fault>
    ensures { OnOk result (surface.new.state.present ≡ surface.old.state.present) }
{
    surface.mark("whole")?;
    let edge = cut_left(alloc, surface)?;
    print_surface(rt, alloc, surface)?;
    print_vertex(rt, alloc, surface, edge.first_dart())?;
    surface.undo(alloc, "whole")?;
    Ok(())
}

/// Cuts the left square across: puts a vertex on side 1 and one on side 3, and an edge between the two. It answers the
/// darts of the edge. Marks stay as they are.
fn cut_left(alloc: Global, surface: &mut Surface) -> Result<Done, Refused>
    ensures { surface.new.state.marks ≡ surface.old.state.marks }
{
    let begin = surface.vertex(alloc, 1)?;
    let end = surface.vertex(alloc, 3)?;
    surface.edge(alloc, begin.first_dart(), end.first_dart())
}

/// The next side of a face: the dart at link 1 of a dart, and none exactly where that link is free.
fn next_side(surface: &Surface, dart: Dart) -> Option<Dart>
    ensures free { IsNone result ↔ (links_of surface.now.state.present.rows 1 dart ≡ 0) }
    ensures next { IfSome result (λ next. next ≡ links_of surface.now.state.present.rows 1 dart) }
{
    surface.links().link(dart, 1)
}

/// Prints how many darts, vertices, edges, faces and components there are, and the faces of three darts.
fn print_surface(rt: &impl Print, alloc: Global, surface: &Surface) -> Result<(), Fault> {
    println!(rt; "counts {:?}", surface.count(alloc)?.as_slice())?;
    print_face(rt, alloc, surface, 1)?;
    print_face(rt, alloc, surface, 3)?;
    print_face(rt, alloc, surface, 5)
}

/// Prints the area of the face of a dart, and its sides as they follow one another.
fn print_face(rt: &impl Print, alloc: Global, surface: &Surface, dart: u64) -> Result<(), Fault> {
    let darts = surface.cell(alloc, 2, dart)?;
    let area = surface.value(2, dart)?.map_or(0, |value| value.a);
    print!(rt; "face of {dart}: area {area}, sides")?;
    let mut side = darts.first().copied();
    for _ in 0..darts.len() {
        let Some(dart) = side else { break };
        print!(rt; " {}", dart.number())?;
        side = next_side(surface, dart);
    }
    println!(rt; "")?;
    Ok(())
}

/// Prints the sides that begin at the vertex of a dart: each with the side before and the next one, and the side behind.
fn print_vertex(rt: &impl Print, alloc: Global, surface: &Surface, dart: u64) -> Result<(), Fault> {
    let links = surface.links();
    for dart in surface.cell(alloc, 0, dart)? {
        println!(rt;
            "side {}: before {}, next {}, behind {}",
            dart.number(),
            links.number_at(dart, 0),
            links.number_at(dart, 1),
            links.number_at(dart, 2)
        )?;
    }
    Ok(())
}
