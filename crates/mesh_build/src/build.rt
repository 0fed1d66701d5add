ghost use Rattle.std.specs.Prelude.{◌≡◌, ◌*◌, ◌≤◌, ◌<◌, ◌^◌, [], ◌∷◌, None, length, map, IfOk, IfErr};
ghost use Rattle.map_defs.specs.Edits.{after_edit};
ghost use Rattle.map_defs.specs.Edits as edits;
ghost use Rattle.map_defs.specs.Rows.{links_of};
ghost use Rattle.map_defs.specs.Off.{HasFaces};
ghost use Rattle.map_defs.specs.MeshMap.{sides_of, mesh_fault, MakesMesh};
ghost use Rattle.map_defs.specs.Polygon.{per_side};
ghost use Rattle.off_text.specs.Meanings.{mesh_view};
ghost use Rattle.cell_walk.specs.CellLists.{AreCellsOf};
ghost use Rattle.mesh_build.specs.Sides.{sides_view, Fails};
ghost use Rattle.mesh_laws.specs.Sides.{kind_of, IsSewn};
ghost use Rattle.mesh_laws.specs.SideLinks.{mesh_edit};

use crate::MeshFault;
use crate::edit::edit_of;
use crate::links::links_of;
use crate::places::places_of;
use crate::sew::{Sewn, sew_faces};
use cell_walk::cell_lists;
use flat_lists::Lists;
use link_rows::{Links, MADE_MAX, PlainEdit};
use map_kind::{Dart, Kind, Place};
use off_text::Mesh;
use std::alloc::Global;

/// The map of a mesh: an edit that makes it from nothing, and for each 0-cell its least dart and its point, ascending.
#[derive(Drop)]
pub struct Built {
    pub edit: PlainEdit,
    pub places: Vec<Place>,
}

/// The map of a mesh, or why it has none; `NoMemory` may come any time.
///
/// The sides are numbered from 0, face by face. Side s has the darts 2s + 1 at its start and 2s + 2 at its end, and in a
/// combinatorial map the dart s + 1 at its start. Links 0 and 1 lead along the faces. Two sides with the same two points are
/// sewn by link 2, and all other links are free.
pub fn mesh_rows<K: Kind, const DIM: usize>(alloc: Global, mesh: &Mesh) -> Result<Built, MeshFault>
    requires low { 2 ≤ DIM }
    requires high { DIM ≤ 8 }
    requires faces { HasFaces (mesh_view mesh.now) }
    // It is made exactly where no fault stands, and else the first fault is told.
    ensures fault { Fails result (mesh_fault K.kind (mesh_view mesh.now)) }
    // What is made is the map of the mesh.
    ensures made { IfOk result (λ built. MakesMesh K.kind DIM (mesh_view mesh.now) built.edit built.places.items) }
{
    let oriented = is_oriented::<K>();
    let sewn = sew_few(alloc, oriented, mesh)?;
    let edit = edit_of(alloc, oriented, &sewn)?;
    let map = sewn_map::<K, DIM>(alloc, oriented, mesh, &sewn)?;
    Ok(Built {
        edit,
        places: map.places,
    })
}

/// The map of a mesh: its links, and for each 0-cell its least dart and its point, ascending, and in the same order the
/// darts of each 0-cell, ascending.
#[derive(Drop)]
pub struct MeshMap<K: Kind, const DIM: usize> {
    pub links: Links<K, DIM>,
    pub places: Vec<Place>,
    pub cells: Lists<Dart>,
}

/// The links of the map of a mesh, as an edit of `mesh_rows` would make them from nothing, or why it has none; `NoMemory`
/// may come any time. It takes less time and memory than such an edit.
pub fn mesh_map<K: Kind, const DIM: usize>(
    alloc: Global,
    mesh: &Mesh,
) -> Result<MeshMap<K, DIM>, MeshFault>
    requires low { 2 ≤ DIM }
    requires high { DIM ≤ 8 }
    requires faces { HasFaces (mesh_view mesh.now) }
    // It is made exactly where no fault stands, and else the first fault is told.
    ensures fault { Fails result (mesh_fault K.kind (mesh_view mesh.now)) }
    // What is made is the map of the mesh.
    ensures made { IfOk result (λ built. (edit : edits.Edit) × MakesMesh K.kind DIM (mesh_view mesh.now) edit built.places.items
        × (built.links.rows ≡ after_edit DIM edit (None ∷ []))) }
    ensures cells { IfOk result (λ built. AreCellsOf K.kind (links_of built.links.rows) 0 (map (λ place. place.dart) built.places.items) built.cells) }
{
    let oriented = is_oriented::<K>();
    let sewn = sew_few(alloc, oriented, mesh)?;
    sewn_map(alloc, oriented, mesh, &sewn)
}

/// The map of a mesh whose sides are sewn.
fn sewn_map<K: Kind, const DIM: usize>(
    alloc: Global,
    oriented: bool,
    mesh: &Mesh,
    sewn: &Sewn,
) -> Result<MeshMap<K, DIM>, MeshFault>
    requires low { 2 ≤ DIM }
    requires high { DIM ≤ 8 }
    requires kind { K.kind ≡ kind_of oriented }
    requires faces { HasFaces (mesh_view mesh.now) }
    requires few { per_side (kind_of oriented) * length sewn.now.sides.items ≤ MADE_MAX }
    requires sides { sides_view sewn.now.sides ≡ sides_of (mesh_view mesh.now).faces }
    requires sewn { IsSewn oriented (sides_view sewn.now.sides) sewn.now.partners.items }
    ensures rows { IfOk result (λ built. built.links.rows
        ≡ after_edit DIM (mesh_edit (kind_of oriented) (sides_view sewn.now.sides) sewn.now.partners.items) (None ∷ [])) }
    ensures makes { IfOk result (λ built. MakesMesh K.kind DIM (mesh_view mesh.now)
        (mesh_edit (kind_of oriented) (sides_view sewn.now.sides) sewn.now.partners.items) built.places.items) }
    ensures cells { IfOk result (λ built. AreCellsOf K.kind (links_of built.links.rows) 0 (map (λ place. place.dart) built.places.items) built.cells) }
    ensures err { IfErr result (λ fault. fault ≡ MeshFault.NoMemory) }
{
    let links = links_of::<K, DIM>(alloc, oriented, sewn)?;
    let cells = cell_lists(alloc, &links, 0)?;
    let places = places_of(alloc, oriented, &mesh.points, &sewn.sides, &cells.least)?;
    Ok(MeshMap {
        links,
        places,
        cells: cells.darts,
    })
}

/// The sides of a mesh, sewn, unless they would have more darts than are ever made; or what is wrong with a face.
fn sew_few(alloc: Global, oriented: bool, mesh: &Mesh) -> Result<Sewn, MeshFault>
    requires faces { HasFaces (mesh_view mesh.now) }
    ensures few { IfOk result (λ sewn. per_side (kind_of oriented) * length sewn.sides.items ≤ MADE_MAX) }
    ensures sides { IfOk result (λ sewn. sides_view sewn.sides ≡ sides_of (mesh_view mesh.now).faces) }
    ensures sewn { IfOk result (λ sewn. IsSewn oriented (sides_view sewn.sides) sewn.partners.items) }
    ensures fault { Fails result (mesh_fault (kind_of oriented) (mesh_view mesh.now)) }
{
    let sides = count_sides(&mesh.faces);
    let darts = dart_count(oriented, sides as u64);
    if darts > u64::from(MADE_MAX) {
        return Err(MeshFault::Full { darts });
    }
    sew_faces(alloc, oriented, mesh, sides)
}

/// Whether the kind is that of combinatorial maps, whose faces have one dart for each side.
fn is_oriented<K: Kind>() -> bool
    ensures kind { K.kind ≡ kind_of result }
{
    K::per_side() == 1
}

/// How many darts so many sides have: one each in an oriented map, and else two.
fn dart_count(oriented: bool, sides: u64) -> u64
    requires { sides ≤ 2 ^ 48 }
    ensures { result ≡ per_side (kind_of oriented) * sides }
{
    if oriented { sides } else { 2 * sides }
}

/// How many sides the faces have: one for each corner.
fn count_sides(faces: &Lists<u32>) -> usize
    ensures { result ≡ length (sides_of faces.now) }
{
    faces.item_count()
}
