//! The dual of a combinatorial map, made in place.
ghost use Rattle.std.specs.Prelude.{◌≡◌, ℕ, ◌↔◌, length, IfErr, OnOk, OnErr, IsErrOf};
ghost use Rattle.map_defs.specs.Kind.{beta};
ghost use Rattle.map_defs.specs.Rows.{links_of, IsLive, IsSound};
ghost use Rattle.map_defs.specs.Laws.{Laws};
ghost use Rattle.map_defs.specs.Dual.{IsDualable, IsDual};

use crate::boundary::dualable;
use link_rows::Links;
use map_kind::{Beta, Refusal};

/// Makes the dual of a combinatorial map in place, which has the same darts. `Boundary` comes exactly where the map has no
/// dual, and leaves the map as it was.
///
/// It takes no memory, and costs a few steps for each link of the darts that were made.
pub fn take_dual<const DIM: usize>(links: &mut Links<Beta, DIM>) -> Result<(), Refusal>
    requires { Laws beta (links_of links.old.rows) }

    // Where there is a dual, the links are those of the dual.
    ensures dualable { OnOk result (IsDualable beta DIM (links_of links.old.rows) (IsLive links.old.rows)) }
    ensures dual { OnOk result (IsDual beta DIM (links_of links.old.rows) (links_of links.new.rows)) }

    // The darts, their numbers and the room for more stay, and the laws are kept.
    ensures live { (d : ℕ) → IsLive links.new.rows d ↔ IsLive links.old.rows d }
    ensures length { length links.new.rows ≡ length links.old.rows }
    ensures spare { links.new.spare ≡ links.old.spare }
    ensures room { links.new.room ≡ links.old.room }
    ensures laws { Laws beta (links_of links.new.rows) }
    ensures sound { OnOk result (IsSound beta DIM links.new.rows) }

    // It is refused only where there is no dual, and then nothing changes.
    ensures boundary { IsErrOf result Refusal.Boundary
        ↔ (IsDualable beta DIM (links_of links.old.rows) (IsLive links.old.rows) → ⊥) }
    ensures refusal { IfErr result (λ refusal. refusal ≡ Refusal.Boundary) }
    ensures err { OnErr result (links.new ≡ links.old) }
{
    if !dualable(links) {
        return Err(Refusal::Boundary);
    }
    links.dualize();
    Ok(())
}
