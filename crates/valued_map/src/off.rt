//! The points of a map, for its OFF text.
ghost use Rattle.std.specs.Prelude.{◌≡◌, ℕ, ◌++◌, IfOk, OnOk, None, map};
ghost use Rattle.std.specs.List.Sorted.{IsStrictlyIncreasing};
ghost use Rattle.store_defs.specs.Labelings.{id_of};
ghost use Rattle.store_defs.specs.Groups.{rule_at};
ghost use Rattle.label_laws.specs.Stored.{stored_value};
ghost use Rattle.label_laws.specs.Lists.{listed};
ghost use Rattle.map_defs.specs.OffOfMap.{IsCell};
ghost use Rattle.off_text.specs.MapViews.{placed};

use crate::ids::stored_value;
use crate::rules::has_rule;
use attr_pool::{Labels, Pool};
use link_rows::Links;
use map_kind::{Dart, Kind, Place};
use std::alloc::{AllocError, Global};
use transport::RuleRow;

/// The 0-cells with a value, each by its least dart, ascending.
pub(crate) fn points<K: Kind, const DIM: usize>(
    alloc: Global,
    links: &Links<K, DIM>,
    labels: &Labels<DIM>,
    pool: &Pool,
    rules: &RuleRow,
) -> Result<Vec<Place>, AllocError>
    requires { (d : ℕ) → rule_at rules.now 0 ≡ None → id_of labels.now 0 d ≡ None }
    ensures ascending { IfOk result (λ places. IsStrictlyIncreasing (map (λ place. place.dart) places.items)) }
    ensures values { IfOk result (λ places. (d : ℕ) → IsCell K.kind links.now.rows 0 d
        → placed places.items d ≡ stored_value pool.now labels.now 0 d) }
{
    let mut places = Vec::new(alloc);
    if !has_rule(rules, 0) {
        return Ok(places);
    }
    let cells = cell_walk::cells(alloc, links, 0)?;
    for dart in &cells {
        add_place(labels, pool, *dart, &mut places)?;
    }
    Ok(places)
}

/// Adds the place of a 0-cell, if it has a value.
fn add_place<const DIM: usize>(
    labels: &Labels<DIM>,
    pool: &Pool,
    dart: Dart,
    places: &mut Vec<Place>,
) -> Result<(), AllocError>
    ensures { OnOk result (places.new.items ≡ places.old.items
        ++ map (λ value. record { dart = value.dart; value = value.value }) (listed 0 dart (stored_value pool.now labels.now 0 dart))) }
{
    let Some(value) = stored_value(labels, pool, 0, dart) else {
        return Ok(());
    };
    places.push(Place { dart, value })?;
    Ok(())
}
