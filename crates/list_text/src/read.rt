//! The listing that a text tells.
ghost use Rattle.std.specs.Prelude.{◌≡◌, ℕ, List, ◌≤◌, length, Ok, IfOk};
ghost use Rattle.machine_defs.specs.ListingForm as text;
ghost use Rattle.machine_defs.specs.ListingFaults.{rules_meant, listing_meant};
ghost use Rattle.list_text.specs.Letters.{IsLetter};
ghost use Rattle.list_text.specs.Views.{told_view};
ghost use Rattle.list_text.specs.Meanings.{IsReadAs};
ghost use Rattle.list_text.specs.Judging.{IsTold, IsSoundListing};

use crate::cursor::Cursor;
use crate::judge::{check_laws, check_rules};
use crate::table::RowTable;
use crate::told::{Told, read_told};
use crate::values::{rules_meant, values_meant};
use crate::{ListFault, ListRule, ListValue, Listing};
use std::alloc::Global;

/// How many bytes the text of a listing has at most.
pub const LISTING_MAX: u64 = 16_777_216;

/// The listing that a text tells, or the first fault of the text. Both versions of the format are read: version 1 has no
/// rules and no marks, and means the rule that keeps the first value and copies it for each dimension with a value.
///
/// First the lines are looked at in their order, for `Form` and then `Order`; then the rows for `Laws`; then the rules and
/// the values for `Values`. It takes memory for what it reads, and not for what the first line promises; `NoMemory` may come
/// any time.
pub fn read_listing(alloc: Global, bytes: &[u8]) -> Result<Listing, ListFault>
    requires { length bytes.now ≤ LISTING_MAX }
    ensures read { IsReadAs bytes.now result }
    ensures sound { IfOk result IsSoundListing }
{
    let told = read_told(
        alloc,
        Cursor {
            line: 0,
            rest: bytes,
        },
    )?;
    listing_of(alloc, told)
}

/// The listing of what the lines of a text tell, or the first fault of its laws, rules and values.
fn listing_of(alloc: Global, told: Told) -> Result<Listing, ListFault>
    requires { IsTold told }
    ensures read { (bytes : List ℕ) → text.told bytes ≡ Ok (told_view told) → IsReadAs bytes result }
    ensures sound { IfOk result IsSoundListing }
{
    let table = RowTable::new(alloc, told.rows.as_slice())?;
    check_laws(&table, &told)?;
    check_rules(&told)?;
    let rules = rules_meant(alloc, &told)?;
    let values = values_meant(alloc, &table, &told, rules.as_slice())?;
    drop(table);
    Ok(listing_with(told, rules, values))
}

/// The listing with these rules and values.
fn listing_with(told: Told, rules: Vec<ListRule>, values: Vec<ListValue>) -> Listing
    requires letter { IsLetter told.header.letter }
    requires rules { rules.items ≡ rules_meant (told_view told) }
    requires values { values.items ≡ (told_view told).listing.values }
    ensures { result ≡ listing_meant (told_view told) }
{
    let Told {
        header,
        rows,
        marks,
        ..
    } = told;
    Listing {
        letter: header.letter,
        dim: header.dim,
        made: header.made,
        rows,
        rules,
        values,
        marks,
    }
}
