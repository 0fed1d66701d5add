ghost use Rattle.std.specs.Prelude.{ℕ, ◌≡◌, ◌+◌, ◌≤◌, ◌<◌, vec_len, vec_capacity};
ghost use Rattle.cell_edit.specs.Writing.{IsLinkEntry, Appends};

use link_rows::Change;
use map_kind::Dart;

/// Appends the change by which a link of a dart that is free becomes the dart of this number; none where the number is 0.
/// There is room for it.
#[inline(always)]
pub fn push_link(dart: Dart, link: usize, number: u32, changes: &mut Vec<Change>)
    requires room { vec_len changes.old < vec_capacity changes.old }
    ensures capacity { vec_capacity changes.new ≡ vec_capacity changes.old }
    ensures few { vec_len changes.new ≤ vec_len changes.old + 1 }
    ensures entry { (L : ℕ → ℕ → ℕ) → L link dart ≡ 0
        → Appends L (IsLinkEntry dart link number) changes.old.items changes.new.items }
{
    if number == 0 {
        return;
    }
    changes.push_reserved(Change::new(dart, link, 0, number));
}
