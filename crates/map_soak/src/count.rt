//! How a line is counted.
ghost use Rattle.std.specs.Prelude.{◌≡◌, ◌+◌, ◌≤◌, ◌<◌, [], ◌∷◌, OnOk};
ghost use Rattle.map_defs.specs.Values.{Hook};
ghost use Rattle.machine_defs.specs.State.{State};
ghost use Rattle.machine_defs.specs.Script.{Line};
ghost use Rattle.map_core.specs.Calls.{Does};
ghost use Rattle.map_soak.specs.Obeyed.{Obeys};

use crate::tally::{LINES_MAX, Tally};
use map_core::Done;
use map_kind::Refused;
use std::alloc::AllocError;

/// Counts a line by what a map answered to it. Want of memory is no answer, and is handed on.
pub(crate) fn count_line(tally: &mut Tally, done: Result<Done, Refused>) -> Result<(), AllocError>
    requires { tally.old.lines < LINES_MAX }
    ensures one { tally.new.lines ≤ tally.old.lines + 1 }
    ensures obeyed { (hook : Hook) (s : State) (line : Line) (new : State) → Does hook s line done new
        → OnOk result (Obeys hook s (line ∷ []) tally.old new tally.new) }
{
    match done {
        Ok(_) => {
            *tally = Tally {
                lines: tally.lines + 1,
                accepted: tally.accepted + 1,
            };
            Ok(())
        }
        Err(Refused::Line(_)) => {
            tally.lines += 1;
            Ok(())
        }
        Err(Refused::NoMemory) => Err(AllocError),
    }
}
