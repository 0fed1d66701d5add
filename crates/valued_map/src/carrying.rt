//! The values that an edit carries to the new cells, and room for values.
ghost use Rattle.std.specs.Prelude.{◌≡◌, ℕ, ◌≤◌, ◌<◌, length, Contains, IsSome, IsTrue, OnOk, IfOk};
ghost use Rattle.map_defs.specs.Rows.{Rows, IsLive, links_of, made};
ghost use Rattle.map_defs.specs.Laws.{Laws};
ghost use Rattle.map_defs.specs.Edits.{IsLed};
ghost use Rattle.store_defs.specs.Stores.{HasRepresentable};
ghost use Rattle.store_defs.specs.Labelings.{id_of};
ghost use Rattle.store_defs.specs.Groups.{group_at, rule_at, darts_in, HasCarriedValue};
ghost use Rattle.label_laws.specs.Maps.{IsStoredMap};
ghost use Rattle.label_laws.specs.Stored.{AreSmall};
ghost use Rattle.label_laws.specs.Touching.{AreGrafted, AreAllTouched};
ghost use Rattle.valued_map.specs.Keeping.{KeepsThose};

use crate::changed::changed_darts;
use crate::kept::Kept;
use crate::rules::has_places;
use attr_pool::{Labels, Pool};
use attr_rules::Hook;
use link_rows::{Edit, Links};
use map_kind::Kind;
use std::alloc::{AllocError, Global};
use transport::{Group, RuleRow, TouchedDarts, carry};

/// The cells that the edit may have changed, with the values that are carried to them, and room in the pool for these
/// values. Darts that were born are given the ids of cells that they joined. Where no dimension has a rule nothing is looked at.
pub(crate) fn carried<K: Kind, H: Hook, const DIM: usize>(
    alloc: Global,
    links: &Links<K, DIM>,
    labels: &mut Labels<DIM>,
    pool: &mut Pool,
    rules: &RuleRow,
    hook: &H,
    edit: &Edit,
    kept: Kept,
) -> Result<Vec<Group>, AllocError>
    requires ready { H.ready hook.now }
    requires led { (old : Rows) × IsLed K.kind DIM edit.now old links.now.rows
        × IsStoredMap K.kind DIM old labels.old pool.old rules.now × KeepsThose K.kind kept old links.now.rows }
    requires long { made links.now.rows ≤ labels.old.made }
    requires laws { Laws K.kind (links_of links.now.rows) }
    ensures grafted { (old : Rows) → IsLed K.kind DIM edit.now old links.now.rows
        → AreGrafted K.kind links.now.rows (made old) (λ i. IsSome (rule_at rules.now i)) labels.old labels.new }
    ensures cells { IfOk result (λ groups. (old : Rows) → IsLed K.kind DIM edit.now old links.now.rows
        → IsStoredMap K.kind DIM old labels.old pool.old rules.now → KeepsThose K.kind kept old links.now.rows
        → AreAllTouched K.kind links.now.rows rules.now labels.new groups.items) }
    ensures values { IfOk result (λ groups. (n : ℕ) → n < length groups.items
        → HasCarriedValue K.kind (links_of links.now.rows) (IsLive links.now.rows) (id_of labels.new) pool.old
        (H.hook hook.now) rules.now (group_at groups.items n)) }
    ensures room { IfOk result (λ groups. length groups.items ≤ pool.new.spare) }
    ensures slots { pool.new.slots ≡ pool.old.slots }
    ensures small { OnOk result (AreSmall rules.now pool.old) }
{
    if !has_places(rules) {
        return Ok(Vec::new(alloc));
    }
    let changed = changed_darts(alloc, links, labels, rules, edit, kept)?;
    see_values(pool);
    if is_empty(&changed) {
        return Ok(Vec::new(alloc));
    }
    let groups = carry(alloc, links, labels, pool, rules, hook, &changed)?;
    make_room(pool, groups.len())?;
    Ok(groups)
}

/// Whether no dimension has a list of touched darts.
fn is_empty(touched: &TouchedDarts) -> bool
    ensures { IsTrue result → (i x : ℕ) → Contains (darts_in touched.now i) x → ⊥ }
{
    touched.by_dim.is_empty()
}

/// The values under ids are within 64 bits: so it is in every pool.
fn see_values(pool: &Pool)
    ensures { HasRepresentable pool.now }
{
    let _ = pool.live_count();
}

/// Makes room for so many further values.
pub(crate) fn make_room(pool: &mut Pool, values: usize) -> Result<(), AllocError>
    ensures slots { pool.new.slots ≡ pool.old.slots }
    ensures room { OnOk result (values ≤ pool.new.spare) }
    ensures small { OnOk result (HasRepresentable pool.old) }
{
    let most = u32::MAX - pool.live_count();
    if values > most as usize {
        return Err(AllocError);
    }
    pool.reserve(values as u32)
}
