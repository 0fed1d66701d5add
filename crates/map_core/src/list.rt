//! The listing of a map, the values of a dimension, and the OFF text.
ghost use Rattle.std.specs.Prelude.{◌≡◌, IfOk};
ghost use Rattle.machine_defs.specs.Script.{Off, Show};
ghost use Rattle.machine_defs.specs.Machine.{Step};
ghost use Rattle.machine_defs.specs.Text.{Meshed, Shown};
ghost use Rattle.map_core.specs.Calls.{AnswersQuestion, TellsValues};
ghost use Rattle.off_text.specs.MapViews.{off_view};
ghost use Rattle.trail_laws.specs.Trails.{mark_names};

use crate::map::Map;
use attr_rules::Hook;
use list_text::{ListValue, Listing, MarkName};
use map_kind::{Kind, Refused};
use off_text::OffRows;
use std::alloc::{AllocError, Global};
use undo_journal::Journal;

impl<'h, K: Kind, H: Hook, const DIM: usize> Map<'h, K, H, DIM> {
    /// The listing of the map: its live darts, ascending, with their links; the rules of the dimensions that have one,
    /// ascending; its cells with a value, each by its least dart, ascending by dimension, then by dart; and the names of its
    /// marks, the oldest first. It costs the size of the map times a logarithm, and the number of marks.
    pub fn listing(&self, alloc: Global) -> Result<Listing, AllocError>
        ensures { IfOk result (λ listing. Step (H.hook self.now.hook) self.now.state Show (Shown listing) self.now.state) }
    {
        let marks = list_marks(alloc, &self.journal)?;
        self.present.listing(alloc, marks)
    }

    /// The cells of a dimension with a value, each by its least dart, ascending. It costs the size of the map times a
    /// logarithm, or nothing where the dimension has no rule.
    ///
    /// Refused as `BadDim` exactly where the dimension is above the map's.
    pub fn values(&self, alloc: Global, dim: u64) -> Result<Vec<ListValue>, Refused>
        ensures { TellsValues self.now.state.present dim result }
    {
        let dim = self.dimension(dim)?;
        Ok(self.present.values_in(alloc, dim)?)
    }

    /// What OFF text tells of the map, to be written by `off_text`: the value of each 0-cell as a point, and each 2-cell as a
    /// face, cells by ascending least dart; and how many 1-cells there are. A face begins at the least dart of its cell and goes
    /// on from each dart with link 0 and then link 1, in a combinatorial map with link 1 alone. It costs the size of the map
    /// times a logarithm.
    ///
    /// Refused as `NotClosed` exactly where the way round a 2-cell meets a free link, then as `NoPoint` exactly where a 0-cell
    /// has no value, and then as `ThinFace` exactly where the way round a 2-cell has fewer than three darts.
    pub fn off_rows(&self, alloc: Global) -> Result<OffRows, Refused>
        ensures { AnswersQuestion (H.hook self.now.hook) self.now.state Off (λ off. Meshed (off_view off)) result }
    {
        self.present.off_rows(alloc)
    }
}

/// The names of the marks that stand, the oldest first.
fn list_marks(alloc: Global, journal: &Journal) -> Result<Vec<MarkName>, AllocError>
    ensures { IfOk result (λ names. names.items ≡ mark_names journal.now.trail) }
{
    let count = journal.mark_count();
    let mut names = Vec::with_capacity(alloc, count)?;
    for place in 0..count {
        let name = journal.mark_name(place).unwrap();
        names.push(MarkName::new(name))?;
    }
    Ok(names)
}
