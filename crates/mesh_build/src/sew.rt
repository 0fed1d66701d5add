ghost use Rattle.std.specs.Prelude.{◌≡◌, ◌+◌, ◌≤◌, ◌<◌, ◌^◌, ◌++◌, [], length, IfOk, OnOk};
ghost use Rattle.map_defs.specs.Off.{HasFaces};
ghost use Rattle.map_defs.specs.MeshMap.{sides_of, face_sides, sides_fault, faces_fault};
ghost use Rattle.off_text.specs.Meanings.{mesh_view};
ghost use Rattle.mesh_build.specs.Sides.{sides_view, Fails};
ghost use Rattle.mesh_laws.specs.Sides.{kind_of, IsSewn};
ghost use Rattle.mesh_build.specs.Books.{KeepsBook};

use crate::MeshFault;
use crate::book::Book;
use crate::repeat::has_repeat;
use crate::side::Side;
use link_rows::MADE_MAX;
use off_text::Mesh;
use std::alloc::Global;

/// All sides of a mesh, by their numbers, and the side that each is sewn to, if it is sewn.
#[derive(Drop)]
pub struct Sewn {
    pub sides: Vec<Side>,
    pub partners: Vec<Option<u32>>,
}

/// The sides of a mesh, sewn where two have the same two points; or what is wrong with a face. Room is made for so many
/// sides.
pub fn sew_faces(
    alloc: Global,
    oriented: bool,
    mesh: &Mesh,
    sides: usize,
) -> Result<Sewn, MeshFault>
    requires faces { HasFaces (mesh_view mesh.now) }
    requires few { length (sides_of (mesh_view mesh.now).faces) ≤ MADE_MAX }
    ensures sides { IfOk result (λ sewn. sides_view sewn.sides ≡ sides_of (mesh_view mesh.now).faces) }
    ensures sewn { IfOk result (λ sewn. IsSewn oriented (sides_view sewn.sides) sewn.partners.items) }
    ensures fault { Fails result (faces_fault (kind_of oriented) 0 [] (mesh_view mesh.now).faces) }
{
    let mut book = Book::with_capacity(alloc, sides)?;
    let mut marks = vec![in alloc; 0u32; mesh.points.len()]?;
    for face in 0..mesh.faces.len() as u32 {
        let corners = mesh.faces.list(face as usize);
        if has_repeat(&mut marks, face + 1, corners) {
            return Err(MeshFault::Repeated { face });
        }
        add_face(&mut book, oriented, face, corners)?;
    }
    Ok(Sewn {
        sides: book.sides,
        partners: book.partners,
    })
}

/// Adds the sides of a face.
fn add_face(book: &mut Book, oriented: bool, face: u32, corners: &[u32]) -> Result<(), MeshFault>
    requires kept { KeepsBook oriented book.old }
    requires few { length book.old.sides.items + length corners.now < 2 ^ 32 }
    ensures kept { OnOk result (KeepsBook oriented book.new) }
    ensures sides { OnOk result (sides_view book.new.sides
        ≡ sides_view book.old.sides ++ face_sides (length book.old.sides.items) corners.now) }
    ensures fault { Fails result (sides_fault (kind_of oriented) face (sides_view book.old.sides)
        (face_sides (length book.old.sides.items) corners.now)) }
{
    let base = book.sides.len() as u32;
    for place in 0..corners.len() as u32 {
        book.add(oriented, face, Side::new(base, corners, place))?;
    }
    Ok(())
}
