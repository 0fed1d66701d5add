//! The changing lines.
ghost use Rattle.std.specs.Prelude.{◌≡◌, ℕ, ◌↔◌, IsTrue};
ghost use Rattle.map_defs.specs.Rows.{IsLive, links_of};
ghost use Rattle.machine_defs.specs.Script.{Polygon, Dart as MakeDart, Del};
ghost use Rattle.map_core.specs.Calls.{Does};

use crate::map::Map;
use attr_rules::Hook;
use link_rows::{BornRows, Edit, Links, SIDES_MAX, polygon_edit};
use map_kind::{Dart, Done, Kind, Refusal, Refused};
use std::alloc::Global;

impl<'h, K: Kind, H: Hook, const DIM: usize> Map<'h, K, H, DIM> {
    /// Makes a polygon: a face of so many sides in a circle, with two darts a side in a generalized and one in a
    /// combinatorial map.
    ///
    /// Refused as `BadCount` exactly where the number of sides is not from 3 to 65,536, and then as `Full` exactly where
    /// more than 4,194,304 darts would have been made.
    pub fn polygon(&mut self, alloc: Global, sides: u64) -> Result<Done, Refused>
        ensures hook { self.new.hook ≡ self.old.hook }
        ensures does { Does (H.hook self.old.hook) self.old.state (Polygon sides) result self.new.state }
    {
        if sides < 3 || sides > u64::from(SIDES_MAX) {
            return Err(Refused::Line(Refusal::BadCount));
        }
        let count = K::per_side() * sides as u32;
        let first = self.links().made() + 1;
        if !self.has_numbers(count) {
            return Err(Refused::Line(Refusal::Full));
        }
        let edit = polygon_edit(alloc, self.links(), sides as u32)?;
        self.bear(alloc, &edit)?;
        Ok(Done { first, count })
    }

    /// Makes one dart, which has no links.
    ///
    /// Refused as `Full` exactly where 4,194,304 darts were made.
    pub fn dart(&mut self, alloc: Global) -> Result<Done, Refused>
        ensures hook { self.new.hook ≡ self.old.hook }
        ensures does { Does (H.hook self.old.hook) self.old.state MakeDart result self.new.state }
    {
        if !self.has_numbers(1) {
            return Err(Refused::Line(Refusal::Full));
        }
        let first = self.links().made() + 1;
        let edit = Edit {
            births: 1,
            deaths: Vec::new(alloc),
            changes: Vec::new(alloc),
            born: BornRows::none(alloc),
        };
        self.bear(alloc, &edit)?;
        Ok(Done { first, count: 1 })
    }

    /// Ends a dart whose links are all free, with the values of its cells. Its number is not given again.
    ///
    /// Refused as `NoDart` exactly where no live dart has the number, and then as `Linked` exactly where some link of
    /// the dart is not free.
    pub fn del(&mut self, alloc: Global, dart: u64) -> Result<Done, Refused>
        ensures hook { self.new.hook ≡ self.old.hook }
        ensures does { Does (H.hook self.old.hook) self.old.state (Del dart) result self.new.state }
    {
        let dart = self.live_dart(dart)?;
        if !is_alone(self.links(), dart) {
            return Err(Refused::Line(Refusal::Linked));
        }
        self.end(alloc, dart)?;
        Ok(Done::NONE)
    }
}

/// Whether all links of a dart are free.
fn is_alone<K: Kind, const DIM: usize>(links: &Links<K, DIM>, dart: Dart) -> bool
    requires { IsLive links.now.rows dart }
    ensures { IsTrue result ↔ ((i : ℕ) → links_of links.now.rows i dart ≡ 0) }
{
    for link in 0..links.dimension() + 1 {
        if !links.is_free(dart, link) {
            return false;
        }
    }
    true
}
