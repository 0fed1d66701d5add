//! Laws of the OFF text that a map writes: it is read again, and leads to the same map.
//!
//! Each law is a function with no parameters and an empty body: what it ensures is the law, for both kinds of map. The
//! relations that the laws speak of are in `specs/`, and the lemmas behind the laws in `proofs/`.
#![tactic(auto)]

ghost use Rattle.std.specs.Prelude.{◌≡◌, None, Ok};
ghost use Rattle.map_defs.specs.Off.{mesh_of};
ghost use Rattle.map_defs.specs.OffOfMap.{OffRows, AreOffRows};
ghost use Rattle.map_defs.specs.MeshMap.{mesh_fault};
ghost use Rattle.machine_defs.specs.State.{Content, State, value_at};
ghost use Rattle.machine_defs.specs.Kept.{IsLawfulContent};
ghost use Rattle.machine_defs.specs.OffText.{off_text};
ghost use Rattle.machine_defs.specs.Loading.{IsLoaded};
ghost use Rattle.off_laws.specs.ReadBack.{mesh_told, IsReadable, IsToldByFaces, IsSameMap};

/// The text of points and faces tells the mesh of these points and faces, if a reader's bounds hold.
///
/// For whoever writes OFF text: what is written is read, number for number.
pub fn written_meshes_are_read()
    ensures { (off : OffRows) → IsReadable off → mesh_of (off_text off) ≡ Ok (mesh_told off) }
{}

/// The points and faces of a map are those of a mesh without a fault, if the map can be told by its faces: links from 3 upwards are
/// free, no face names a vertex twice, and sides with the same two vertices are sewn.
///
/// For whoever writes OFF text: it will not be refused for its faces.
pub fn written_maps_have_no_fault()
    ensures { (c : Content) (off : OffRows) → IsLawfulContent c → AreOffRows c.kind c.rows (value_at c 0) off
        → IsToldByFaces c.kind c.rows off → mesh_fault c.kind (mesh_told off) ≡ None }
{}

/// The map that is loaded from the OFF text of a map is that map, up to the numbers of darts, if it can be told by its faces and
/// a reader's bounds hold. Where two sides with the same two vertices are not sewn, loading sews them, and the map is another.
///
/// For whoever stores a map as OFF text and reads it again.
pub fn written_maps_are_read_back()
    ensures { (c : Content) (off : OffRows) (start : State) → IsLawfulContent c → AreOffRows c.kind c.rows (value_at c 0) off
        → IsReadable off → IsToldByFaces c.kind c.rows off → IsLoaded c.kind c.dim (off_text off) start → IsSameMap c start.present }
{}
