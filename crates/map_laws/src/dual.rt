//! The dual of the dual.
ghost use Rattle.std.specs.Prelude.{◌≡◌, OnOk, IfErr};
ghost use Rattle.machine_defs.specs.Script.{Dual};
ghost use Rattle.machine_defs.specs.Text.{Done};
ghost use Rattle.map_laws.specs.Both.{ObeysBoth, FailsAt};

use crate::fault::LawFault;
use crate::sew::see_kept;
use attr_rules::Hook;
use kind_edit::Edits;
use map_core::Map;
use map_kind::Refused;
use std::alloc::Global;

/// Makes a map its dual and that its dual again: links, values and rules are back. It costs what the two lines cost.
///
/// Answers `First` where [`Map::dual`] refuses its line, or has no memory for it, and `SecondNoMemory` where it has none for the
/// second.
pub fn dual_twice<K: Edits<DIM>, H: Hook, const DIM: usize>(
    alloc: Global,
    map: &mut Map<'_, K, H, DIM>,
) -> Result<(), LawFault>
    ensures hook { map.new.hook ≡ map.old.hook }
    ensures both { OnOk result (ObeysBoth (H.hook map.old.hook) map.old.state Dual (Done 0 0) Dual (Done 0 0) map.new.state) }
    ensures back { OnOk result (map.new.state.present ≡ map.old.state.present) }
    ensures fault { IfErr result (λ fault. FailsAt (H.hook map.old.hook) map.old.state Dual fault map.new.state) }
{
    see_kept(map);
    match map.dual(alloc) {
        Ok(_) => {}
        Err(refused) => return Err(LawFault::First(refused)),
    }
    match map.dual(alloc) {
        Ok(_) => Ok(()),
        Err(Refused::NoMemory) => Err(LawFault::SecondNoMemory),
        // A dual has a dual in its turn.
        Err(Refused::Line(_)) => unreachable!(),
    }
}
