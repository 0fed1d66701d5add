//! Inserting a vertex, an edge and a face.
ghost use Rattle.std.specs.Prelude.{◌≡◌, ◌≤◌, length};
ghost use Rattle.map_defs.specs.Rows.{links_of};
ghost use Rattle.map_defs.specs.Laws.{Laws};
ghost use Rattle.map_defs.specs.Edits.{Fits, after_edit};
ghost use Rattle.machine_defs.specs.Script.{Vertex, Edge, Face};
ghost use Rattle.valued_map.specs.Keeping.{KeepsThose};
ghost use Rattle.map_core.specs.Calls.{Does};
ghost use Rattle.map_core.specs.Growing.{Grows, AreLiveDarts};

use crate::map::Map;
use attr_rules::Hook;
use kind_edit::Edits;
use link_rows::{Edit, MADE_MAX};
use map_kind::{Dart, Done, Kind, PATH_MAX, Refusal, Refused};
use std::alloc::Global;
use valued_map::Kept;

impl<'h, K: Edits<DIM>, H: Hook, const DIM: usize> Map<'h, K, H, DIM> {
    /// Puts a vertex on the edge of a dart. Each dart of the edge gets a new dart beyond the vertex, numbered on from those
    /// that were made in the order of the edge's darts; the answer tells them. The values of the cells are carried to the
    /// new cells. It costs the darts of the edge, and the cells of these darts in the dimensions 0 and 1 where these have a rule,
    /// times a logarithm: the faces and all cells above are kept but for the new darts in them.
    ///
    /// Refused as `NoDart` exactly where no live dart has the number, and then as `Full` exactly where more than 4,194,304
    /// darts would have been made.
    pub fn vertex(&mut self, alloc: Global, dart: u64) -> Result<Done, Refused>
        requires { H.ready self.old.hook }
        ensures hook { self.new.hook ≡ self.old.hook }
        ensures does { Does (H.hook self.old.hook) self.old.state (Vertex dart) result self.new.state }
    {
        let dart = self.live_dart(dart)?;
        let edit = K::vertex_plan(alloc, self.links(), dart)?;
        self.insert(alloc, &edit, Kept::FACES_AND_ABOVE)
    }

    /// Puts an edge into a face, from the corner of one dart to that of another. Each dart of the two corners, on all sides
    /// of the face, gets a new dart, numbered on from those that were made in the order of the corners' darts; the answer
    /// tells them. The values of the cells are carried to the new cells. It costs the darts of the two corners and those
    /// of the face that lie between them, and the cells of the corners' darts where a dimension above 0 has a rule, times a
    /// logarithm: the vertices are kept but for the new darts in them.
    ///
    /// In a generalized map the edge parts the face where the way round it from `dart`, along link 0 and then link 1 and so on,
    /// comes to `other` along link 0. With the other dart of that corner in its place the edge is twisted, and the face stays
    /// one.
    ///
    /// Refused as `NoDart` exactly where no live dart has one of the numbers; then as `OtherCell` exactly where the darts do
    /// not lie on one side of one face; then as `SameCorner` exactly where they lie in one corner; then as `Unpaired`
    /// exactly where the darts of the corners cannot be paired; and then as `Full` exactly where more than 4,194,304 darts
    /// would have been made.
    pub fn edge(&mut self, alloc: Global, dart: u64, other: u64) -> Result<Done, Refused>
        requires { H.ready self.old.hook }
        ensures hook { self.new.hook ≡ self.old.hook }
        ensures does { Does (H.hook self.old.hook) self.old.state (Edge dart other) result self.new.state }
    {
        let dart = self.live_dart(dart)?;
        let other = self.live_dart(other)?;
        let edit = K::edge_plan(alloc, self.links(), dart, other)?;
        self.insert(alloc, &edit, Kept::VERTICES)
    }

    /// Puts a face into a volume along a closed path of 1 to `PATH_MAX` darts, one at the start of each of its sides. Each dart of
    /// these sides, with their copies on the other volumes, gets a new dart, numbered on from those that were made in the
    /// order of the sides' darts; the answer tells them. The values of the cells are carried to the new cells. It costs
    /// the darts of the path's vertices and sides, and the cells of the sides' darts where a dimension has a rule, times a
    /// logarithm.
    ///
    /// Refused as `BadDim` exactly in a map of dimension 2; then as `NoDart` exactly where no live dart has one of the
    /// numbers; then as `OtherCell` exactly where the darts do not lie on one side of one volume; then as `NotClosed`
    /// exactly where some side does not end where the next begins; then as `Unpaired` exactly where a dart stands twice on
    /// the path or the darts of the sides cannot be paired; and then as `Full` exactly where more than 4,194,304 darts
    /// would have been made.
    pub fn face(&mut self, alloc: Global, path: &[u64]) -> Result<Done, Refused>
        requires ready { H.ready self.old.hook }
        requires some { 1 ≤ length path.now }
        requires few { length path.now ≤ PATH_MAX }
        ensures hook { self.new.hook ≡ self.old.hook }
        ensures does { Does (H.hook self.old.hook) self.old.state (Face path.now) result self.new.state }
    {
        if self.links().dimension() < 3 {
            return Err(Refused::Line(Refusal::BadDim));
        }
        let darts = self.live_darts(alloc, path)?;
        let edit = K::face_plan(alloc, self.links(), &darts)?;
        self.insert(alloc, &edit, Kept::NONE)
    }
}

impl<'h, K: Kind, H: Hook, const DIM: usize> Map<'h, K, H, DIM> {
    /// Makes an edit that inserts and keeps the cells of some dimensions, unless too many darts would have been made, and answers
    /// the darts that were born.
    pub(crate) fn insert(&mut self, alloc: Global, edit: &Edit, kept: Kept) -> Result<Done, Refused>
        requires ready { H.ready self.old.hook }
        requires fits { Fits K.kind DIM self.old.state.present.rows edit.now }
        requires laws { Laws K.kind (links_of (after_edit DIM edit.now self.old.state.present.rows)) }
        requires kept { KeepsThose K.kind kept self.old.state.present.rows (after_edit DIM edit.now self.old.state.present.rows) }
        ensures hook { self.new.hook ≡ self.old.hook }
        ensures grows { Grows (H.hook self.old.hook) self.old.state edit.now result self.new.state }
    {
        let made = self.links().made();
        if edit.births > MADE_MAX - made {
            return Err(Refused::Line(Refusal::Full));
        }
        self.relink(alloc, edit, kept)?;
        if edit.births == 0 {
            return Ok(Done::NONE);
        }
        Ok(Done {
            first: made + 1,
            count: edit.births,
        })
    }

    /// The live darts of these numbers, in their order. `NoDart` comes exactly where no live dart has one of them.
    fn live_darts(&self, alloc: Global, numbers: &[u64]) -> Result<Vec<Dart>, Refused>
        ensures { AreLiveDarts self.now.state.present.rows numbers.now result }
    {
        let mut darts = Vec::new(alloc);
        for number in numbers {
            let dart = self.live_dart(*number)?;
            darts.push(dart)?;
        }
        Ok(darts)
    }
}
