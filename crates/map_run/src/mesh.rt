//! The map of a mesh, and the line that refuses one.
ghost use Rattle.std.specs.Prelude.{◌≡◌, ◌≤◌, ◌++◌, [], ◌∷◌, Some, None, length, map, codes, IfOk, IfErr, OnOk};
ghost use Rattle.map_defs.specs.Edits.{after_edit};
ghost use Rattle.map_defs.specs.Edits as edits;
ghost use Rattle.map_defs.specs.Rows.{links_of};
ghost use Rattle.machine_defs.specs.State.{empty_state};
ghost use Rattle.machine_defs.specs.Text.{ended, spaced};
ghost use Rattle.map_defs.specs.Off.{Mesh as ReadMesh};
ghost use Rattle.machine_defs.specs.Outside.{Rose};
ghost use Rattle.map_defs.specs.MeshMap.{MakesMesh};
ghost use Rattle.machine_defs.specs.Loading.{IsLoaded, text_fault_line};
ghost use Rattle.cell_walk.specs.CellLists.{AreCellsOf};
ghost use Rattle.off_text.specs.Meanings.{meaning};
ghost use Rattle.map_run.specs.Loads.{Refuses, IsRead, WritesFault, text_line, map_line, fault_line};

use crate::last::write_last;
use attr_rules::Hook;
use map_core::Map;
use map_io::Sink;
use map_kind::Kind;
use mesh_build::{MeshFault, MeshMap, mesh_map};
use off_text::{OffFault, OffWhat, TEXT_MAX, read_off};
use std::alloc::{AllocError, Global};
use text_lines::append_spaced;
use thiserror::Error;

/// Why a mesh is not loaded. Both kinds of fault include want of memory.
#[derive(Clone, Copy, Debug, PartialEq, Eq, Error)]
pub enum LoadFault {
    /// The text tells no mesh.
    #[error("{0}")]
    Text(OffFault),
    /// The mesh has no map.
    #[error("{0}")]
    Map(MeshFault),
}

/// Makes the map of a mesh from the first state of a map.
pub fn load_mesh<K: Kind, H: Hook, const DIM: usize>(
    alloc: Global,
    map: &mut Map<'_, K, H, DIM>,
    bytes: &[u8],
) -> Result<(), LoadFault>
    requires low { 2 ≤ DIM }
    requires high { DIM ≤ 8 }
    requires new { map.old.state ≡ empty_state K.kind DIM }
    requires short { length bytes.now ≤ TEXT_MAX }
    ensures hook { map.new.hook ≡ map.old.hook }
    ensures loaded { OnOk result (IsLoaded K.kind DIM bytes.now map.new.state) }
    ensures refused { IfErr result (λ fault. Refuses K.kind bytes.now fault) }
{
    let built = build_mesh::<K, DIM>(alloc, bytes)?;
    match map.load_links(alloc, built.links, &built.places, &built.cells) {
        Ok(_) => Ok(()),
        Err(_) => Err(LoadFault::Map(MeshFault::NoMemory)),
    }
}

/// The map of the mesh that a text tells.
fn build_mesh<K: Kind, const DIM: usize>(
    alloc: Global,
    bytes: &[u8],
) -> Result<MeshMap<K, DIM>, LoadFault>
    requires low { 2 ≤ DIM }
    requires high { DIM ≤ 8 }
    requires short { length bytes.now ≤ TEXT_MAX }
    ensures built { IfOk result (λ built. (mesh : ReadMesh) × IsRead K.kind bytes.now mesh
        × (edit : edits.Edit) × MakesMesh K.kind DIM mesh edit built.places.items
        × (built.links.rows ≡ after_edit DIM edit (None ∷ []))) }
    ensures cells { IfOk result (λ built. AreCellsOf K.kind (links_of built.links.rows) 0 (map (λ place. place.dart) built.places.items) built.cells) }
    ensures refused { IfErr result (λ fault. Refuses K.kind bytes.now fault) }
{
    let mesh = match read_off(alloc, bytes) {
        Ok(mesh) => mesh,
        Err(fault) => return Err(LoadFault::Text(fault)),
    };
    match mesh_map::<K, DIM>(alloc, &mesh) {
        Ok(built) => Ok(built),
        Err(fault) => Err(LoadFault::Map(fault)),
    }
}

/// Writes the line that says why a mesh is refused, and answers the status.
pub fn refuse_mesh<S: Sink>(alloc: Global, out: &mut S, fault: LoadFault) -> u8
    ensures written { WritesFault (S.written out.old) (S.written out.new)
        (Rose (S.faults out.old) (S.faults out.new)) fault result }
    ensures unwritten { result ≡ 6 → Rose (S.faults out.old) (S.faults out.new) }
    ensures later { S.faults out.old ≤ S.faults out.new }
    ensures range { result ≤ 7 }
{
    match fault_text(alloc, fault) {
        Ok(line) => write_last(out, line.as_slice(), 3),
        Err(_) => 7,
    }
}

/// The line of a fault, with its line feed. Want of memory has none.
fn fault_text(alloc: Global, fault: LoadFault) -> Result<Vec<u8>, AllocError>
    ensures { IfOk result (λ line. fault_line fault ≡ Some line.items) }
{
    match fault {
        LoadFault::Text(fault) => text_fault(alloc, fault),
        LoadFault::Map(fault) => map_fault(alloc, fault),
    }
}

fn text_fault(alloc: Global, fault: OffFault) -> Result<Vec<u8>, AllocError>
    ensures { IfOk result (λ line. text_line fault ≡ Some line.items) }
{
    match fault {
        OffFault::Bad { line, what } => bad_line(alloc, line, what),
        OffFault::NoMemory => Err(AllocError),
    }
}

fn map_fault(alloc: Global, fault: MeshFault) -> Result<Vec<u8>, AllocError>
    ensures { IfOk result (λ line. map_line fault ≡ Some line.items) }
{
    match fault {
        MeshFault::Full { .. } => Vec::from_slice(alloc, b"off Full\n"),
        MeshFault::Repeated { face } => bad_face(alloc, face, b" Repeated"),
        MeshFault::ThreeSides { face } => bad_face(alloc, face, b" ThreeSides"),
        MeshFault::Turned { face } => bad_face(alloc, face, b" Turned"),
        MeshFault::NoMemory => Err(AllocError),
    }
}

fn bad_line(alloc: Global, line: u32, what: OffWhat) -> Result<Vec<u8>, AllocError>
    ensures { IfOk result (λ text. text.items ≡ text_fault_line (record { line = line; what = meaning what })) }
{
    let mut text = Vec::from_slice(alloc, b"off line")?;
    append_spaced(&mut text, line)?;
    text.push(b' ')?;
    text.extend_from_slice(what.name().as_bytes())?;
    text.push(b'\n')?;
    Ok(text)
}

fn bad_face(alloc: Global, face: u32, what: &[u8]) -> Result<Vec<u8>, AllocError>
    ensures { IfOk result (λ text. text.items ≡ ended (codes "off face" ++ spaced face ++ what.now)) }
{
    let mut text = Vec::from_slice(alloc, b"off face")?;
    append_spaced(&mut text, face)?;
    text.extend_from_slice(what)?;
    text.push(b'\n')?;
    Ok(text)
}
