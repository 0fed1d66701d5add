//! Steps are noted where a mark stands. Without a mark nothing is looked at, and no memory is taken.
ghost use Rattle.std.specs.Prelude.{◌≡◌, ◌<◌, ◌≤◌, ◌↔◌, IsTrue, IsSome, IfOk, OnOk};
ghost use Rattle.trail_laws.specs.Trails.{IsOrdered};
ghost use Rattle.map_core.specs.Noted.{advanced};

use std::alloc::AllocError;
use undo_journal::{Journal, Step};

/// Marks and steps are in order: so it is in every trail.
pub(crate) fn see_order(journal: &Journal)
    ensures { IsOrdered journal.now.trail }
{
    let _ = journal.mark_count();
}

/// Whether a mark stands, so that steps are noted.
pub(crate) fn is_noting(journal: &Journal) -> bool
    ensures noting { IsTrue result ↔ (0 < journal.now.trail.standing) }
    ensures ordered { IsOrdered journal.now.trail }
{
    journal.mark_count() > 0
}

/// Makes room for a step where a mark stands, and answers whether one does.
pub(crate) fn begin(journal: &mut Journal) -> Result<bool, AllocError>
    ensures trail { journal.new.trail ≡ journal.old.trail }
    ensures ordered { IsOrdered journal.old.trail }
    ensures noting { IfOk result (λ noting. IsTrue noting ↔ (0 < journal.old.trail.standing)) }
    ensures room { OnOk result (0 < journal.old.trail.standing → 1 ≤ journal.new.room) }
{
    if !is_noting(journal) {
        return Ok(false);
    }
    journal.reserve()?;
    Ok(true)
}

/// Notes a step, if there is one. It takes no memory: room was made.
pub(crate) fn finish(journal: &mut Journal, step: Option<Step>)
    requires { IsSome step → 1 ≤ journal.old.room }
    ensures { journal.new.trail ≡ advanced journal.old.trail step }
{
    if let Some(step) = step {
        journal.note(step);
    }
}
