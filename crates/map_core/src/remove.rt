//! Removing and contracting cells.
ghost use Rattle.std.specs.Prelude.{◌≡◌};
ghost use Rattle.machine_defs.specs.Script.{Remove, Contract, Removable, Contractible};
ghost use Rattle.machine_defs.specs.Text.{Truth};
ghost use Rattle.map_core.specs.Calls.{Does, AnswersQuestion};

use crate::map::Map;
use attr_rules::Hook;
use kind_edit::Edits;
use map_kind::{Done, Refused};
use std::alloc::Global;
use valued_map::Kept;

impl<'h, K: Edits<DIM>, H: Hook, const DIM: usize> Map<'h, K, H, DIM> {
    /// Removes a dart's cell of a dimension: its darts end, and the cells of the next dimension that met there become one.
    /// The link of the dimension of each remaining dart that led into the cell leads to the first dart outside it, on the
    /// walk across the cell; in a generalized map the link is free where that is the dart itself. A vertex of a combinatorial
    /// map is taken out of its edges: a remaining dart takes the links of the last dart of its run into the vertex. The values
    /// of the cells are carried to the new cells. It costs the darts of the cell and the walks across it, and the cells of the darts whose links change
    /// where a dimension has a rule, times a logarithm.
    ///
    /// Refused as `BadDim` exactly where the dimension is above the map's, then as `NoDart` exactly where no live dart has
    /// the number, and then as `NotRemovable` exactly where the cell cannot be removed. In a generalized map that is where at
    /// some dart of it the next two links do not commute, so that more than two cells of the next dimension meet there: a
    /// cell of the map's dimension, or of the one below, can always be removed.
    pub fn remove(&mut self, alloc: Global, dim: u64, dart: u64) -> Result<Done, Refused>
        requires { H.ready self.old.hook }
        ensures hook { self.new.hook ≡ self.old.hook }
        ensures does { Does (H.hook self.old.hook) self.old.state (Remove dim dart) result self.new.state }
    {
        let dim = self.dimension(dim)?;
        let dart = self.live_dart(dart)?;
        let edit = K::remove_plan(alloc, self.links(), dim, dart)?;
        self.relink(alloc, &edit, Kept::NONE)?;
        Ok(Done::NONE)
    }

    /// Contracts a dart's cell of a dimension: its darts end, and the cells of the dimension below that it joined become
    /// one. The link of the dimension of each remaining dart that led into the cell leads to the first dart outside it, on
    /// the walk across the cell; in a generalized map the link is free where that is the dart itself. The values of the
    /// cells are carried to the new cells. It costs the darts of the cell and the walks across it, and the cells of the darts
    /// whose links change where a dimension has a rule, times a logarithm.
    ///
    /// Refused as `BadDim` exactly where the dimension is above the map's, then as `NoDart` exactly where no live dart has
    /// the number, and then as `NotContractible` exactly where the cell cannot be contracted: a vertex never can, an edge
    /// always. Another cell of a generalized map can where at each dart of it the two links below commute.
    pub fn contract(&mut self, alloc: Global, dim: u64, dart: u64) -> Result<Done, Refused>
        requires { H.ready self.old.hook }
        ensures hook { self.new.hook ≡ self.old.hook }
        ensures does { Does (H.hook self.old.hook) self.old.state (Contract dim dart) result self.new.state }
    {
        let dim = self.dimension(dim)?;
        let dart = self.live_dart(dart)?;
        let edit = K::contract_plan(alloc, self.links(), dim, dart)?;
        self.relink(alloc, &edit, Kept::NONE)?;
        Ok(Done::NONE)
    }

    /// Whether a dart's cell of a dimension can be removed: whether `remove` would not be refused as `NotRemovable`. It
    /// costs the darts of the cell and the walks across it, for each link of the map, times a logarithm.
    ///
    /// Refused as `BadDim` exactly where the dimension is above the map's, and then as `NoDart` exactly where no live dart
    /// has the number.
    pub fn removable(&self, alloc: Global, dim: u64, dart: u64) -> Result<bool, Refused>
        ensures { AnswersQuestion (H.hook self.now.hook) self.now.state (Removable dim dart) Truth result }
    {
        let dim = self.dimension(dim)?;
        let dart = self.live_dart(dart)?;
        Ok(K::removable(alloc, self.links(), dim, dart)?)
    }

    /// Whether a dart's cell of a dimension can be contracted: whether `contract` would not be refused as
    /// `NotContractible`. It costs the darts of the cell and the walks across it, for each link of the map, times a
    /// logarithm.
    ///
    /// Refused as `BadDim` exactly where the dimension is above the map's, and then as `NoDart` exactly where no live dart
    /// has the number.
    pub fn contractible(&self, alloc: Global, dim: u64, dart: u64) -> Result<bool, Refused>
        ensures { AnswersQuestion (H.hook self.now.hook) self.now.state (Contractible dim dart) Truth result }
    {
        let dim = self.dimension(dim)?;
        let dart = self.live_dart(dart)?;
        Ok(K::contractible(alloc, self.links(), dim, dart)?)
    }
}
