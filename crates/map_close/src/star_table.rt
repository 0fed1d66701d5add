ghost use Rattle.std.specs.Prelude.{◌≡◌, ◌≢◌, ◌+◌, ◌≤◌, ◌<◌, length, vec_len, vec_capacity, IfOk};
ghost use Rattle.map_defs.specs.Kind.{inverse};
ghost use Rattle.map_defs.specs.Rows.{links_of, made, made_max};
ghost use Rattle.map_defs.specs.Laws.{Laws};
ghost use Rattle.cell_edit.specs.Stars.{star_of};
ghost use Rattle.map_close.specs.Boundary.{IsToldBelow};
ghost use Rattle.map_close.specs.NewLinks.{CanClose};

use link_rows::Links;
use map_kind::{Dart, Kind};
use std::alloc::{AllocError, Global};
use std::marker::Model;

/// The new darts of the darts of a closing: they are numbered on from those that were made, in the order of the darts. A
/// table over all darts that were made tells the new dart of each in one step.
#[derive(Drop)]
pub(crate) struct StarTable {
    made: u32,
    births: u32,
    // At the place of each dart's number that of its new dart, and 0 at all other places.
    numbers: Vec<u32>,
}

impl Model for StarTable {
    ghost use Rattle.std.specs.Prelude.{ℕ, ◌≡◌, ◌+◌, ◌≤◌, length, slice_index};
    ghost use Rattle.map_defs.specs.Rows.{made_max};
    ghost use Rattle.map_close.specs.Boundary.{keys_from};
    ghost use Rattle.cell_edit.specs.Stars as stars;

    ghost Value = { stars.Stars };

    ghost view = { λ table. record { keys = keys_from 0 table.numbers.items; made = table.made } };

    ghost invariant = { λ table. (table.made ≤ made_max) × (table.births ≤ table.made)
        × (table.births ≡ length (keys_from 0 table.numbers.items)) × (length table.numbers.items ≡ table.made + 1)
        × ((x : ℕ) → slice_index table.numbers.items x ≡ stars.number_from (table.made + 1) (keys_from 0 table.numbers.items) x) };
}

impl StarTable {
    /// New darts for the live darts that are free at a link.
    pub(crate) fn of_open_darts<K: Kind, const DIM: usize>(
        alloc: Global,
        links: &Links<K, DIM>,
        link: usize,
    ) -> Result<Self, AllocError>
        requires link { link ≤ DIM }
        requires own { inverse K.kind link ≡ link }
        requires laws { Laws K.kind (links_of links.now.rows) }
        ensures { IfOk result (CanClose K.kind links.now.rows link) }
    {
        let made = links.made();
        let mut numbers = Vec::with_capacity(alloc, made as usize + 1)?;
        // 0 is no dart.
        numbers.push_reserved(0);
        let mut next = made + 1;
        for number in 1..made + 1 {
            next = push_star(links, link, Dart::new(number).unwrap(), next, &mut numbers);
        }
        Ok(StarTable {
            made,
            births: next - made - 1,
            numbers,
        })
    }

    /// How many new darts there are.
    pub(crate) fn births(&self) -> u32
        ensures { result ≡ length self.now.keys }
    {
        self.births
    }

    /// The first new dart, if there are any.
    pub(crate) fn first(&self) -> Dart
        ensures { result ≡ self.now.made + 1 }
    {
        Dart::new(self.made + 1).unwrap()
    }

    /// The number of the new dart of the dart of this number; 0 where none has it, or that gets no new dart.
    pub(crate) fn number(&self, of: u32) -> u32
        requires { of ≤ self.now.made }
        ensures { result ≡ star_of self.now of }
    {
        self.numbers[of as usize]
    }
}

/// Appends the number of the new dart of a dart: `next` if the dart is live and free at a link, and 0 if not. Answers the
/// number of the next new dart. Who lives is looked at first, for then the row needs no further look.
fn push_star<K: Kind, const DIM: usize>(
    links: &Links<K, DIM>,
    link: usize,
    dart: Dart,
    next: u32,
    numbers: &mut Vec<u32>,
) -> u32
    requires link { link ≤ DIM }
    requires dart { dart ≤ made links.now.rows }
    requires room { vec_len numbers.old < vec_capacity numbers.old }
    requires before { IsToldBelow links.now.rows link dart next numbers.old.items }
    ensures capacity { vec_capacity numbers.new ≡ vec_capacity numbers.old }
    ensures told { IsToldBelow links.now.rows link (dart + 1) result numbers.new.items }
{
    // A map has links 0 to 8 at most.
    links.see_sound();
    if !links.is_live(dart) || links.live_row(dart).entry(link) != 0 {
        numbers.push_reserved(0);
        return next;
    }
    numbers.push_reserved(next);
    next + 1
}
