//! The laws and the rules of what the lines of a text tell.
ghost use Rattle.std.specs.Prelude.{◌≡◌, All, IfErr, OnOk};
ghost use Rattle.machine_defs.specs.ListingFaults.{IsLawfulRow, IsRuleOf};
ghost use Rattle.list_text.specs.Letters.{kind_named};
ghost use Rattle.list_text.specs.Views.{told_view};
ghost use Rattle.list_text.specs.Judging.{IsTold, IsLawsFault, IsRulesFault};

use crate::laws::first_unlawful;
use crate::lines::bad;
use crate::table::RowTable;
use crate::told::Told;
use crate::{ListFault, ListWhat};
use map_kind::{Alpha, Beta, Kind};

/// Refuses the first row at whose dart a law fails.
pub(crate) fn check_laws(table: &RowTable, told: &Told) -> Result<(), ListFault>
    requires same { table.now ≡ told.now.rows.items }
    requires told { IsTold told.now }
    ensures ok { OnOk result (All (IsLawfulRow (told_view told.now).listing) (told_view told.now).listing.rows) }
    ensures fault { IfErr result (IsLawsFault (told_view told.now)) }
{
    if told.header.letter == b'g' {
        check_laws_of::<Alpha>(table, told)
    } else {
        check_laws_of::<Beta>(table, told)
    }
}

/// The same, where the kind is known.
fn check_laws_of<K: Kind>(table: &RowTable, told: &Told) -> Result<(), ListFault>
    requires kind { kind_named told.now.header.letter ≡ K.kind }
    requires same { table.now ≡ told.now.rows.items }
    requires told { IsTold told.now }
    ensures ok { OnOk result (All (IsLawfulRow (told_view told.now).listing) (told_view told.now).listing.rows) }
    ensures fault { IfErr result (IsLawsFault (told_view told.now)) }
{
    match first_unlawful::<K>(table, told.header.dim as usize, told.rows.as_slice()) {
        Some(place) => Err(bad(place as u32 + 2, ListWhat::Laws)),
        None => Ok(()),
    }
}

/// Refuses the first rule of a dimension above the map's.
pub(crate) fn check_rules(told: &Told) -> Result<(), ListFault>
    requires { IsTold told.now }
    ensures ok { OnOk result (All (IsRuleOf (told_view told.now).listing) (told_view told.now).listing.rules) }
    ensures fault { IfErr result (IsRulesFault (told_view told.now)) }
{
    for (place, rule) in told.rules.iter().enumerate() {
        if rule.dim > u64::from(told.header.dim) {
            let line = told.rows.len() + place + 2;
            return Err(bad(line as u32, ListWhat::Values));
        }
    }
    Ok(())
}
