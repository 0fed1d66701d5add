//! Closing the map, hanging an edge at a corner, and putting a vertex in the middle of a face.
ghost use Rattle.std.specs.Prelude.{◌≡◌, ◌↔◌, ℕ, ◌+◌, ◌≤◌};
ghost use Rattle.machine_defs.specs.Script.{Close, Dangle, Center};
ghost use Rattle.valued_map.specs.Keeping.{IsKept};
ghost use Rattle.map_core.specs.Calls.{Does};
ghost use Rattle.map_core.specs.Numbers.{NamesClosingLink, IsKeptByClosing};

use crate::map::Map;
use attr_rules::Hook;
use kind_edit::Edits;
use link_rows::{Edit, Links};
use map_kind::{Done, Kind, Refusal, Refused, is_generalized};
use std::alloc::Global;
use valued_map::Kept;

impl<'h, K: Edits<DIM>, H: Hook, const DIM: usize> Map<'h, K, H, DIM> {
    /// Closes the map at a link: each live dart that is free there gets a new dart across it, numbered on from those that were
    /// made in the order of these darts; the answer tells them. The new darts are joined with each other as the boundary
    /// runs, and are free at the next link. The values of the cells are carried to the new cells. It looks at each dart
    /// once; besides it costs the darts of the boundary, and the cells of these darts where a dimension has a rule, times a
    /// logarithm, but for those that are kept: in a generalized map all below the link, in a combinatorial map the vertices
    /// where the link is 2.
    ///
    /// Refused as `BadDim` exactly where the link is above the map's dimension, or below 2 in a combinatorial map, and then as
    /// `Full` exactly where more than 4,194,304 darts would have been made.
    pub fn close(&mut self, alloc: Global, link: u64) -> Result<Done, Refused>
        requires { H.ready self.old.hook }
        ensures hook { self.new.hook ≡ self.old.hook }
        ensures does { Does (H.hook self.old.hook) self.old.state (Close link) result self.new.state }
    {
        let link = closing_link(self.links(), link)?;
        let edit = K::close_plan(alloc, self.links(), link)?;
        self.insert(alloc, &edit, kept_by_closing::<K>(link))
    }

    /// Hangs an edge at the corner of a dart. Each dart of the corner, on all sides of the face, gets two new darts: first all
    /// those where the new edges begin are numbered on from those that were made, in the order of the corner's darts, and
    /// then in the same order those where they end; the answer tells them. The values of the cells are carried to the new
    /// cells. It costs the darts of the corner, and the cells of these darts where a dimension above 0 has a rule, times a
    /// logarithm: the vertices are kept but for the new darts in them.
    ///
    /// Refused as `NoDart` exactly where no live dart has the number; then as `Unpaired` exactly where no side leads into the
    /// corner of a combinatorial map; and then as `Full` exactly where more than 4,194,304 darts would have been made.
    pub fn dangle(&mut self, alloc: Global, dart: u64) -> Result<Done, Refused>
        requires { H.ready self.old.hook }
        ensures hook { self.new.hook ≡ self.old.hook }
        ensures does { Does (H.hook self.old.hook) self.old.state (Dangle dart) result self.new.state }
    {
        let dart = self.live_dart(dart)?;
        let edit = K::dangle_plan(alloc, self.links(), dart)?;
        self.insert(alloc, &edit, kept_by_hanging(&edit))
    }

    /// Puts a vertex in the middle of the face of a dart, with an edge to each corner. Each dart of the face gets two new darts,
    /// numbered as those of [`Map::dangle`]. The values of the cells are carried to the new cells: where the face has a
    /// value and the dimension a rule, it is dealt out to the triangles. It costs the darts of the face, and the cells of
    /// these darts where a dimension above 0 has a rule, times a logarithm: the vertices are kept but for the new darts in them.
    ///
    /// Refused as `NoDart` exactly where no live dart has the number; then as `NotClosed` exactly where some dart of the face is
    /// free at link 0 or link 1; and then as `Full` exactly where more than 4,194,304 darts would have been made.
    pub fn center(&mut self, alloc: Global, dart: u64) -> Result<Done, Refused>
        requires { H.ready self.old.hook }
        ensures hook { self.new.hook ≡ self.old.hook }
        ensures does { Does (H.hook self.old.hook) self.old.state (Center dart) result self.new.state }
    {
        let dart = self.live_dart(dart)?;
        let edit = K::center_plan(alloc, self.links(), dart)?;
        self.insert(alloc, &edit, kept_by_hanging(&edit))
    }
}

/// The link of this number. `BadDim` comes exactly where the map cannot be closed at it: it is above the map's dimension, or
/// below 2 in a combinatorial map, whose links 0 and 1 lead around the faces.
fn closing_link<K: Kind, const DIM: usize>(
    links: &Links<K, DIM>,
    number: u64,
) -> Result<usize, Refusal>
    ensures { NamesClosingLink K.kind DIM number result }
{
    if number > links.dimension() as u64 {
        return Err(Refusal::BadDim);
    }
    if number < 2 && K::inverse(0) != 0 {
        return Err(Refusal::BadDim);
    }
    Ok(number as usize)
}

/// What is kept where edges are hung: the vertices, and the later half of the new darts, where the new edges end, lie at vertices of
/// their own.
fn kept_by_hanging(edit: &Edit) -> Kept
    ensures among { (i : ℕ) → IsKept result i → i ≡ 0 }
    ensures aside { result.aside + result.aside ≤ edit.now.births }
{
    Kept {
        aside: edit.births / 2,
        ..Kept::VERTICES
    }
}

/// The dimensions whose cells are kept where a map is closed at a link: all below the link in a generalized map, and in a
/// combinatorial map that of the vertices where the link is 2.
fn kept_by_closing<K: Kind>(link: usize) -> Kept
    ensures among { (i : ℕ) → IsKept result i ↔ IsKeptByClosing K.kind link i }
    ensures aside { result.aside ≡ 0 }
{
    if is_generalized::<K>() {
        return Kept {
            from: 0,
            to: link,
            aside: 0,
        };
    }
    if link == 2 {
        return Kept::VERTICES;
    }
    Kept::NONE
}
