//! Sewing and unsewing.
ghost use Rattle.std.specs.Prelude.{◌≡◌};
ghost use Rattle.machine_defs.specs.Script.{Sew, Unsew, Sewable};
ghost use Rattle.machine_defs.specs.Text.{Truth};
ghost use Rattle.map_core.specs.Calls.{Does, AnswersQuestion};
ghost use Rattle.map_core.specs.Numbers.{NamesSewingLink};

use crate::map::Map;
use attr_rules::Hook;
use link_rows::Links;
use map_kind::{Done, Kind, Refusal, Refused};
use sewing::{sew_plan, sewable, unsew_plan};
use std::alloc::Global;
use valued_map::Kept;

impl<'h, K: Kind, H: Hook, const DIM: usize> Map<'h, K, H, DIM> {
    /// Sews two darts at a link: the link of the first becomes the second, the inverse link of the second becomes the
    /// first, and all darts that must move with them, along the links distant from the link, are joined in the same way.
    /// The values of the cells are carried to the new cells. It costs the number of darts that it joins, and the cells of
    /// these darts where a dimension has a rule, times a logarithm.
    ///
    /// Refused as `BadDim` exactly where the link is above the map's dimension, or is link 0 of a combinatorial map, which
    /// follows link 1; then as `NoDart` exactly where no live dart has one of the numbers; then as `NotFree` exactly where
    /// one of the two ends is not free; and then as `Unsewable` exactly where the darts cannot be paired.
    pub fn sew(&mut self, alloc: Global, link: u64, dart: u64, other: u64) -> Result<Done, Refused>
        requires { H.ready self.old.hook }
        ensures hook { self.new.hook ≡ self.old.hook }
        ensures does { Does (H.hook self.old.hook) self.old.state (Sew link dart other) result self.new.state }
    {
        let link = sewing_link(self.links(), link)?;
        let dart = self.live_dart(dart)?;
        let other = self.live_dart(other)?;
        let edit = sew_plan(alloc, self.links(), link, dart, other)?;
        self.relink(alloc, &edit, Kept::NONE)?;
        Ok(Done::NONE)
    }

    /// Frees a link of a dart, with all links of darts that were sewn together with it, both ends of each. The
    /// values of the cells are carried to the new cells. It costs the number of links that it frees, and the cells of
    /// their darts where a dimension has a rule, times a logarithm.
    ///
    /// Refused as `BadDim` exactly where the link is above the map's dimension, or is link 0 of a combinatorial map, which
    /// follows link 1; then as `NoDart` exactly where no live dart has the number; and then as `AlreadyFree` exactly where
    /// the link is free.
    pub fn unsew(&mut self, alloc: Global, link: u64, dart: u64) -> Result<Done, Refused>
        requires { H.ready self.old.hook }
        ensures hook { self.new.hook ≡ self.old.hook }
        ensures does { Does (H.hook self.old.hook) self.old.state (Unsew link dart) result self.new.state }
    {
        let link = sewing_link(self.links(), link)?;
        let dart = self.live_dart(dart)?;
        let edit = unsew_plan(alloc, self.links(), link, dart)?;
        self.relink(alloc, &edit, Kept::NONE)?;
        Ok(Done::NONE)
    }

    /// Whether two darts can be sewn at a link: whether `sew` would be refused neither as `NotFree` nor as `Unsewable`.
    /// It costs the number of darts that would be joined times a logarithm.
    ///
    /// Refused as `BadDim` exactly where the link is above the map's dimension, or is link 0 of a combinatorial map, which
    /// follows link 1, and then as `NoDart` exactly where no live dart has one of the numbers.
    pub fn sewable(&self, alloc: Global, link: u64, dart: u64, other: u64) -> Result<bool, Refused>
        ensures { AnswersQuestion (H.hook self.now.hook) self.now.state (Sewable link dart other) Truth result }
    {
        let link = sewing_link(self.links(), link)?;
        let dart = self.live_dart(dart)?;
        let other = self.live_dart(other)?;
        Ok(sewable(alloc, self.links(), link, dart, other)?)
    }
}

/// The link of this number. `BadDim` comes exactly where no darts can be sewn at it: it is above the map's dimension, or is
/// link 0 of a combinatorial map, which follows link 1.
fn sewing_link<K: Kind, const DIM: usize>(
    links: &Links<K, DIM>,
    number: u64,
) -> Result<usize, Refusal>
    ensures { NamesSewingLink K.kind DIM number result }
{
    if number > links.dimension() as u64 {
        return Err(Refusal::BadDim);
    }
    if number == 0 && K::inverse(0) != 0 {
        return Err(Refusal::BadDim);
    }
    Ok(number as usize)
}
