//! Sewing and unsewing.
ghost use Rattle.std.specs.Prelude.{◌≡◌, OnOk, IfErr};
ghost use Rattle.machine_defs.specs.Kept.{IsLawfulContent};
ghost use Rattle.machine_defs.specs.Script.{Sew, Unsew};
ghost use Rattle.machine_defs.specs.Text.{Done};
ghost use Rattle.map_laws.specs.Both.{ObeysBoth, FailsAt};

use crate::fault::LawFault;
use attr_rules::Hook;
use map_core::Map;
use map_kind::{Kind, Refused};
use std::alloc::Global;

/// Sews two darts at a link and unsews the first again: all links are back, and the same darts live. Values may differ:
/// where the sewing made two cells one, their values were merged and then shared out. It costs what the two lines cost.
///
/// Answers `First` where [`Map::sew`] refuses its line, or has no memory for it, and `SecondNoMemory` where [`Map::unsew`] has
/// none.
pub fn sew_then_unsew<K: Kind, H: Hook, const DIM: usize>(
    alloc: Global,
    map: &mut Map<'_, K, H, DIM>,
    link: u64,
    dart: u64,
    other: u64,
) -> Result<(), LawFault>
    requires ready { H.ready map.old.hook }
    ensures hook { map.new.hook ≡ map.old.hook }
    ensures both { OnOk result (ObeysBoth (H.hook map.old.hook) map.old.state
        (Sew link dart other) (Done 0 0) (Unsew link dart) (Done 0 0) map.new.state) }
    ensures back { OnOk result (map.new.state.present.rows ≡ map.old.state.present.rows) }
    ensures fault { IfErr result (λ fault. FailsAt (H.hook map.old.hook) map.old.state (Sew link dart other) fault map.new.state) }
{
    see_kept(map);
    match map.sew(alloc, link, dart, other) {
        Ok(_) => {}
        Err(refused) => return Err(LawFault::First(refused)),
    }
    match map.unsew(alloc, link, dart) {
        Ok(_) => Ok(()),
        Err(Refused::NoMemory) => Err(LawFault::SecondNoMemory),
        // What was just sewn is not free.
        Err(Refused::Line(_)) => unreachable!(),
    }
}

/// The present content is a lawful map: so it is in every map.
pub(crate) fn see_kept<K: Kind, H: Hook, const DIM: usize>(map: &Map<'_, K, H, DIM>)
    ensures { IsLawfulContent map.now.state.present }
{
    let _ = map.links();
}
