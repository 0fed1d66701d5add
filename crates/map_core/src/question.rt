//! The questions, which change nothing.
ghost use Rattle.std.specs.Prelude.{◌≡◌, ◌↔◌, is_none, IfOk, IfSome, IsNone};
ghost use Rattle.map_defs.specs.Rows.{links_of};
ghost use Rattle.machine_defs.specs.Script.{Cell, Same, Free, Count};
ghost use Rattle.machine_defs.specs.Machine.{Step};
ghost use Rattle.machine_defs.specs.Text.{Darts, Truth, Counts};
ghost use Rattle.map_core.specs.Calls.{AnswersQuestion, AnswersAtOnce};

use crate::map::Map;
use attr_rules::Hook;
use map_kind::{Dart, Kind, Refusal, Refused};
use std::alloc::{AllocError, Global};

impl<'h, K: Kind, H: Hook, const DIM: usize> Map<'h, K, H, DIM> {
    /// The darts of a dart's cell of a dimension, ascending. It costs the size of the cell times a logarithm.
    ///
    /// Refused as `BadDim` exactly where the dimension is above the map's, and then as `NoDart` exactly where no live
    /// dart has the number.
    pub fn cell(&self, alloc: Global, dim: u64, dart: u64) -> Result<Vec<Dart>, Refused>
        ensures { AnswersQuestion (H.hook self.now.hook) self.now.state (Cell dim dart) (λ darts. Darts darts.items) result }
    {
        let dim = self.dimension(dim)?;
        let dart = self.live_dart(dart)?;
        Ok(cell_walk::cell(alloc, self.links(), dim, dart)?)
    }

    /// Whether two darts lie in the same cell of a dimension. It costs the size of the first dart's cell times a
    /// logarithm.
    ///
    /// Refused as `BadDim` exactly where the dimension is above the map's, and then as `NoDart` exactly where no live
    /// dart has one of the numbers.
    pub fn same(&self, alloc: Global, dim: u64, dart: u64, other: u64) -> Result<bool, Refused>
        ensures { AnswersQuestion (H.hook self.now.hook) self.now.state (Same dim dart other) Truth result }
    {
        let dim = self.dimension(dim)?;
        let dart = self.live_dart(dart)?;
        let other = self.live_dart(other)?;
        Ok(cell_walk::same(alloc, self.links(), dim, dart, other)?)
    }

    /// Whether a link of a dart is free. It takes no memory.
    ///
    /// Refused as `BadDim` exactly where the link is above the map's dimension, and then as `NoDart` exactly where no
    /// live dart has the number.
    pub fn free(&self, link: u64, dart: u64) -> Result<bool, Refusal>
        ensures { AnswersAtOnce (H.hook self.now.hook) self.now.state (Free link dart) Truth result }
    {
        let link = self.dimension(link)?;
        let dart = self.live_dart(dart)?;
        Ok(self.links().is_free(dart, link))
    }

    /// The number of the dart to which a link of a dart leads; none exactly where the link is free. It takes no memory.
    ///
    /// Refused as [`Map::free`] is: as `BadDim` exactly where the link is above the map's dimension, and then as `NoDart`
    /// exactly where no live dart has the number.
    pub fn link(&self, link: u64, dart: u64) -> Result<Option<u64>, Refusal>
        ensures refused { AnswersAtOnce (H.hook self.now.hook) self.now.state (Free link dart) (λ other. Truth (is_none other)) result }
        ensures free { IfOk result (λ other. IsNone other ↔ (links_of self.now.state.present.rows link dart ≡ 0)) }
        ensures linked { IfOk result (λ other. IfSome other (λ number. number ≡ links_of self.now.state.present.rows link dart)) }
    {
        let index = self.dimension(link)?;
        let dart = self.live_dart(dart)?;
        match self.links().link(dart, index) {
            Some(other) => Ok(Some(u64::from(other.number()))),
            None => Ok(None),
        }
    }

    /// How many live darts, cells of dimensions 0 to `DIM`, and components there are, in this order.
    pub fn count(&self, alloc: Global) -> Result<Vec<u64>, AllocError>
        ensures { IfOk result (λ counts. Step (H.hook self.now.hook) self.now.state Count (Counts counts.items) self.now.state) }
    {
        cell_walk::counts(alloc, self.links())
    }
}
