//! Inserting and removing.
ghost use Rattle.std.specs.Prelude.{◌≡◌, IfOk, IfErr};
ghost use Rattle.machine_defs.specs.Script.{Remove};
ghost use Rattle.machine_defs.specs.Text as text;
ghost use Rattle.map_core.specs.Calls.{Does};
ghost use Rattle.map_laws.specs.Both.{ObeysBoth, FailsAt};
ghost use Rattle.map_laws.specs.Insertions.{insertion_line, new_dim, HasSides};
ghost use Rattle.map_laws.specs.Back.{AreBack};

use crate::fault::LawFault;
use crate::sew::see_kept;
use attr_rules::Hook;
use kind_edit::Edits;
use map_core::Map;
use map_kind::{Done, Refused};
use std::alloc::Global;

/// A line that inserts a cell, by the numbers of its darts.
#[derive(Debug, Drop)]
pub enum Insertion {
    /// A vertex on the edge of a dart, as [`Map::vertex`] puts it.
    Vertex(u64),
    /// An edge between the corners of two darts, as [`Map::edge`] puts it.
    Edge(u64, u64),
    /// A face along a closed path of darts, as [`Map::face`] puts it.
    Face(Vec<u64>),
    /// An edge that hangs at the corner of a dart, as [`Map::dangle`] hangs it.
    Dangle(u64),
}

/// Inserts a vertex, an edge or a face and removes it again at its first new dart: the darts that lived have their links
/// back, and no other dart lives. The numbers of the new darts are not given again. Values may differ: where the insertion
/// split a cell, its value was shared out and then merged. Answers what the insertion answered. It costs what the two lines cost.
///
/// Answers `First` where the map refuses the insertion, or has no memory for it, and `SecondNoMemory` where [`Map::remove`]
/// has none.
pub fn insert_then_remove<K: Edits<DIM>, H: Hook, const DIM: usize>(
    alloc: Global,
    map: &mut Map<'_, K, H, DIM>,
    insertion: &Insertion,
) -> Result<Done, LawFault>
    requires ready { H.ready map.old.hook }
    requires sides { HasSides insertion.now }
    ensures hook { map.new.hook ≡ map.old.hook }
    ensures both { IfOk result (λ done. ObeysBoth (H.hook map.old.hook) map.old.state (insertion_line insertion.now)
        (text.Done done.first done.count) (Remove (new_dim insertion.now) done.first) (text.Done 0 0) map.new.state) }
    ensures back { IfOk result (λ done. AreBack map.old.state.present.rows done.count map.new.state.present.rows) }
    ensures fault { IfErr result (λ fault. FailsAt (H.hook map.old.hook) map.old.state (insertion_line insertion.now) fault map.new.state) }
{
    see_kept(map);
    let done = match insert(alloc, map, insertion) {
        Ok(done) => done,
        Err(refused) => return Err(LawFault::First(refused)),
    };
    match map.remove(alloc, inserted_dimension(insertion), u64::from(done.first)) {
        Ok(_) => Ok(done),
        Err(Refused::NoMemory) => Err(LawFault::SecondNoMemory),
        // What was just inserted can be removed.
        Err(Refused::Line(_)) => unreachable!(),
    }
}

/// Obeys the line of an insertion.
fn insert<K: Edits<DIM>, H: Hook, const DIM: usize>(
    alloc: Global,
    map: &mut Map<'_, K, H, DIM>,
    insertion: &Insertion,
) -> Result<Done, Refused>
    requires ready { H.ready map.old.hook }
    requires sides { HasSides insertion.now }
    ensures hook { map.new.hook ≡ map.old.hook }
    ensures does { Does (H.hook map.old.hook) map.old.state (insertion_line insertion.now) result map.new.state }
{
    match insertion {
        Insertion::Vertex(dart) => map.vertex(alloc, *dart),
        Insertion::Edge(dart, other) => map.edge(alloc, *dart, *other),
        Insertion::Face(path) => map.face(alloc, path),
        Insertion::Dangle(dart) => map.dangle(alloc, *dart),
    }
}

/// The dimension of the cell that an insertion makes.
fn inserted_dimension(insertion: &Insertion) -> u64
    ensures { result ≡ new_dim insertion.now }
{
    match insertion {
        Insertion::Vertex(_) => 0,
        Insertion::Edge(_, _) | Insertion::Dangle(_) => 1,
        Insertion::Face(_) => 2,
    }
}
