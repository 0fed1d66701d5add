//! Laws of reading a mesh: the mesh that is read of a text, the fault of the text and the fault of the mesh are those that are
//! told by places, with no loop.
//!
//! Each law is a function with no parameters and an empty body: what it ensures is the law. The relations that the laws
//! speak of are in `specs/`, and the lemmas behind the laws in `proofs/`.
#![tactic(auto)]

ghost use Rattle.std.specs.Prelude.{◌≡◌, ◌↔◌, ℕ, List, Some, None, Ok, Err};
ghost use Rattle.map_defs.specs.Kind.{Kind};
ghost use Rattle.map_defs.specs.Off.{Mesh, TextFault, mesh_of};
ghost use Rattle.map_defs.specs.MeshMap.{MapFault, mesh_fault};
ghost use Rattle.reading_laws.specs.MeshFaults.{CanBeSewn, IsMeshFault};
ghost use Rattle.reading_laws.specs.MeshTexts.{HasFault, IsMeshText};

/// The mesh that is read of a text is the one that its lines tell: the counts on their line, then each point and each face on
/// a line of its own, and no line more.
///
/// For whoever writes the text of a mesh: the cuts of the reader need not be followed.
pub fn the_mesh_told_is_read()
    ensures { (text : List ℕ) (mesh : Mesh) → (mesh_of text ≡ Ok mesh) ↔ IsMeshText text mesh }
{}

/// The fault that is found in a text is what is wrong on the first line that is not what should stand at its place; where the
/// text ends too early, it is told of the line behind the last.
///
/// For whoever reads why a text was refused: the line and the word for it follow from the text alone.
pub fn the_first_wrong_line_is_told()
    ensures { (text : List ℕ) (fault : TextFault) → (mesh_of text ≡ Err fault) ↔ HasFault text fault }
{}

/// The fault that is found of a mesh is the one that it has by places: too many darts, or what is wrong first with the first
/// face at fault.
///
/// For whoever reads why a mesh has no map: the fold over faces and the earlier sides need not be followed.
pub fn found_fault_is_the_first()
    ensures { (k : Kind) (mesh : Mesh) (fault : MapFault) → (mesh_fault k mesh ≡ Some fault) ↔ IsMeshFault k mesh fault }
{}

/// No fault is found just of the meshes that have none.
///
/// For whoever loads a mesh: none is refused without one of the faults that can be told.
pub fn no_fault_is_found_where_none_is()
    ensures { (k : Kind) (mesh : Mesh) → (mesh_fault k mesh ≡ None) ↔ ((fault : MapFault) → IsMeshFault k mesh fault → ⊥) }
{}

/// No fault is found just of the meshes whose sides can be sewn: this is said with no order of faces and sides.
///
/// For whoever makes a mesh: what has to hold of it is a property of its faces together, whichever comes first.
pub fn faultless_meshes_can_be_sewn()
    ensures { (k : Kind) (mesh : Mesh) → (mesh_fault k mesh ≡ None) ↔ CanBeSewn k mesh }
{}
