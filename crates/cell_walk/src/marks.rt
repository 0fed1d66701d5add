//! Marks of darts, for walks over the whole map: each at the place of a dart's number. The place of 0, which is no dart, is
//! marked too, so that a link that is free is passed by like one that leads to a dart that was found.
ghost use Rattle.std.specs.Prelude.{◌≡◌, ◌≢◌, ◌+◌, ◌<◌, [], ◌∷◌, ◌++◌, true, length, slice_set, IsTrue, IfSome, IfNone, OnOk};
ghost use Rattle.cell_walk.specs.Marks.{IsMarked, AreMarked};

use map_kind::Dart;
use std::alloc::AllocError;

/// Makes marks for darts that are numbered up to `made`, none of which is marked.
pub(crate) fn clear_marks(marks: &mut Vec<bool>, made: u32) -> Result<(), AllocError>
    ensures places { OnOk result (length marks.new.items ≡ made + 1) }
    ensures clear { OnOk result (AreMarked marks.new.items []) }
{
    marks.clear();
    marks.resize(made as usize + 1, false)?;
    marks[0] = true;
    Ok(())
}

/// The dart of a number, if neither the number is 0 nor its dart was marked. It is marked from now on.
#[inline(always)]
pub(crate) fn newly_marked(number: u32, marks: &mut [bool]) -> Option<Dart>
    requires place { number < length marks.old }
    requires nothing { IsMarked marks.old 0 }
    ensures some { IfSome result (λ dart. (number ≡ dart) × (dart ≢ 0) × (IsMarked marks.old dart → ⊥)) }
    ensures marked { IfSome result (λ dart. marks.new ≡ slice_set marks.old dart true) }
    ensures none { IfNone result (IsMarked marks.old number) }
    ensures same { IfNone result (marks.new ≡ marks.old) }
{
    let place = number as usize;
    if marks[place] {
        return None;
    }
    marks[place] = true;
    Some(Dart::new(number).unwrap())
}

/// Marks the dart of a number and puts it behind a list, if neither the number is 0 nor the dart was marked. The list has
/// room for all darts of the map: one more would be refused as if there were no memory.
#[inline(always)]
pub(crate) fn put(number: u32, marks: &mut [bool], darts: &mut Vec<Dart>) -> Result<(), AllocError>
    requires place { number < length marks.old }
    requires nothing { IsMarked marks.old 0 }
    ensures known { OnOk result (IsMarked marks.old number → (marks.new ≡ marks.old) × (darts.new.items ≡ darts.old.items)) }
    ensures new { OnOk result ((IsMarked marks.old number → ⊥)
        → (marks.new ≡ slice_set marks.old number true) × (darts.new.items ≡ darts.old.items ++ number ∷ [])) }
{
    let Some(dart) = newly_marked(number, marks) else {
        return Ok(());
    };
    if darts.len() >= darts.capacity() {
        return Err(AllocError);
    }
    darts.push_reserved(dart);
    Ok(())
}

/// Does the same, if the dart is wanted.
#[inline(always)]
pub(crate) fn put_if(
    wanted: bool,
    number: u32,
    marks: &mut [bool],
    darts: &mut Vec<Dart>,
) -> Result<(), AllocError>
    requires place { number < length marks.old }
    requires nothing { IsMarked marks.old 0 }
    ensures known { OnOk result ((IsTrue wanted → IsMarked marks.old number) → (marks.new ≡ marks.old) × (darts.new.items ≡ darts.old.items)) }
    ensures new { OnOk result (IsTrue wanted → (IsMarked marks.old number → ⊥)
        → (marks.new ≡ slice_set marks.old number true) × (darts.new.items ≡ darts.old.items ++ number ∷ [])) }
{
    if wanted {
        return put(number, marks, darts);
    }
    Ok(())
}
