//! A script, obeyed from the map of a mesh or from the empty map.
ghost use Rattle.std.specs.Prelude.{◌≡◌, ℕ, ◌≤◌, List, Some, IfOk, IfErr, IsErrOf};
ghost use Rattle.machine_defs.specs.Outside.{Rose};
ghost use Rattle.map_io.specs.Cause.{HasCause};
ghost use Rattle.map_run.specs.Going.{ObeysScript};
ghost use Rattle.map_run.specs.Commands.{kind_of, number};
ghost use Rattle.map_run.specs.Ending.{status_of};
ghost use Rattle.map_run.specs.Texts.{AreShort, mesh_bytes, IsFirst, EndsTexts};
ghost use Rattle.map_run.specs.Loads.{Refuses};

use crate::command::{Dimension, MapKind};
use crate::files::Texts;
use crate::mesh::{LoadFault, load_mesh, refuse_mesh};
use crate::{machine, script};
use attr_rules::Hook;
use map_core::{Edits, Map};
use map_io::{PutFault, Sink};
use map_kind::{Alpha, Beta, Kind};
use std::alloc::Global;

/// Obeys a script from the map of a kind and a dimension that a mesh makes, or else from the empty one, writes the replies or
/// the line that refuses the mesh, and answers the status.
pub fn obey_in_kind<S: Sink, H: Hook>(
    alloc: Global,
    kind: MapKind,
    dimension: Dimension,
    texts: &Texts,
    out: &mut S,
    hook: &H,
) -> u8
    requires ready { H.ready hook.now }
    requires short { AreShort texts.now }
    ensures ends { EndsTexts (H.hook hook.now) (kind_of kind) (number dimension) (mesh_bytes texts.now.mesh) texts.now.script.items
        (Rose (S.faults out.old) (S.faults out.new)) (S.written out.old) (S.written out.new) result }
    ensures unwritten { result ≡ 6 → Rose (S.faults out.old) (S.faults out.new) }
    ensures later { S.faults out.old ≤ S.faults out.new }
{
    match kind {
        MapKind::Generalized => obey_in_dimension::<Alpha, S, H>(
            alloc, dimension, texts, out, hook,
        ),
        MapKind::Combinatorial => obey_in_dimension::<Beta, S, H>(
            alloc, dimension, texts, out, hook,
        ),
    }
}

/// The same for a kind that is known.
fn obey_in_dimension<K: Edits<2> + Edits<3> + Edits<4>, S: Sink, H: Hook>(
    alloc: Global,
    dimension: Dimension,
    texts: &Texts,
    out: &mut S,
    hook: &H,
) -> u8
    requires ready { H.ready hook.now }
    requires short { AreShort texts.now }
    ensures ends { EndsTexts (H.hook hook.now) K.kind (number dimension) (mesh_bytes texts.now.mesh) texts.now.script.items
        (Rose (S.faults out.old) (S.faults out.new)) (S.written out.old) (S.written out.new) result }
    ensures unwritten { result ≡ 6 → Rose (S.faults out.old) (S.faults out.new) }
    ensures later { S.faults out.old ≤ S.faults out.new }
{
    match dimension {
        Dimension::Two => obey_texts::<K, H, 2, S>(alloc, texts, out, hook),
        Dimension::Three => obey_texts::<K, H, 3, S>(alloc, texts, out, hook),
        Dimension::Four => obey_texts::<K, H, 4, S>(alloc, texts, out, hook),
    }
}

/// The same, in one dimension.
fn obey_texts<K: Edits<DIM>, H: Hook, const DIM: usize, S: Sink>(
    alloc: Global,
    texts: &Texts,
    out: &mut S,
    hook: &H,
) -> u8
    requires ready { H.ready hook.now }
    requires low { 2 ≤ DIM }
    requires high { DIM ≤ 8 }
    requires short { AreShort texts.now }
    ensures ends { EndsTexts (H.hook hook.now) K.kind DIM (mesh_bytes texts.now.mesh) texts.now.script.items
        (Rose (S.faults out.old) (S.faults out.new)) (S.written out.old) (S.written out.new) result }
    ensures unwritten { result ≡ 6 → Rose (S.faults out.old) (S.faults out.new) }
    ensures later { S.faults out.old ≤ S.faults out.new }
{
    match first_map::<K, H, DIM>(alloc, texts, hook) {
        Ok(map) => script_status(obey_script(alloc, map, &texts.script, out)),
        Err(fault) => refuse_mesh(alloc, out, fault),
    }
}

/// The map that a script starts from.
fn first_map<'h, K: Kind, H: Hook, const DIM: usize>(
    alloc: Global,
    texts: &Texts,
    hook: &'h H,
) -> Result<Map<'h, K, H, DIM>, LoadFault>
    requires low { 2 ≤ DIM }
    requires high { DIM ≤ 8 }
    requires short { AreShort texts.now }
    ensures hook { IfOk result (λ map. map.hook ≡ hook.now) }
    ensures first { IfOk result (λ map. IsFirst K.kind DIM (mesh_bytes texts.now.mesh) map.state) }
    ensures refused { IfErr result (λ fault. (bytes : List ℕ) × (mesh_bytes texts.now.mesh ≡ Some bytes) × Refuses K.kind bytes fault) }
{
    let mut map = Map::new(alloc, hook);
    match &texts.mesh {
        None => Ok(map),
        Some(bytes) => {
            load_mesh(alloc, &mut map, bytes)?;
            Ok(map)
        }
    }
}

/// Obeys a script from a map, writes the replies, and answers whether some line was refused.
fn obey_script<K: Edits<DIM>, H: Hook, const DIM: usize, S: Sink>(
    alloc: Global,
    map: Map<'_, K, H, DIM>,
    script: &[u8],
    out: &mut S,
) -> Result<bool, PutFault>
    requires { H.ready map.hook }
    ensures obeyed { ObeysScript (H.hook map.entry.hook) (S.written out.old) (S.written out.new) map.entry.state script.now result }
    ensures cause { HasCause (S.faults out.old) (S.faults out.new) (IsErrOf result PutFault.Failed) }
{
    let mut map = map;
    let mut reply = Vec::new(alloc);
    let mut refused = false;
    let mut rest = Some(script);
    while let Some(text) = rest {
        let (line, after) = script::next_line(text);
        let line_refused = machine::obey_line(alloc, line, &mut map, &mut reply, out)?;
        refused = refused || line_refused;
        rest = after;
    }
    Ok(refused)
}

/// The status of a script that was obeyed, or cut short.
fn script_status(obeyed: Result<bool, PutFault>) -> u8
    ensures { result ≡ status_of obeyed }
{
    match obeyed {
        Ok(false) => 0,
        Ok(true) => 1,
        Err(PutFault::Failed) => 6,
        Err(PutFault::NoMemory) => 7,
    }
}
