ghost use Rattle.std.specs.Prelude.{◌≡◌, ℕ, ◌+◌, ◌<◌, ◌≤◌, ◌++◌, length, Some, IsSome, IfOk, OnOk, Contains};
ghost use Rattle.map_defs.specs.Rows.{IsLive, links_of, IsSound};
ghost use Rattle.map_defs.specs.Touched.{Covers, IsAlike};
ghost use Rattle.map_defs.specs.Cells.{InCell};
ghost use Rattle.map_defs.specs.Values.{Rule, meaning_of};
ghost use Rattle.map_defs.specs.Carry.{IsCarried};
ghost use Rattle.store_defs.specs.Stores.{IsHeld, HasRepresentable};
ghost use Rattle.store_defs.specs.Labelings.{id_of};
ghost use Rattle.store_defs.specs.Groups.{group_at, darts_in, rule_at, labelled_value, known_value, AreTouchedCells, HasCarriedValue};
ghost use Rattle.transport.specs.Joined.{IsCarriedCell, IsWanted, AreAllOf};

use crate::group::{Group, RuleRow, TouchedDarts};
use crate::merging::merge_pieces;
use crate::pieces::pieces_of;
use crate::touched::touched_cells;
use attr_pool::{Labels, Pool};
use attr_rules::{Hook, RuleWith};
use link_rows::Links;
use map_kind::Kind;
use std::alloc::{AllocError, Global};

/// Carries values along after a change of links: `links` are the new links, `labels` have the ids of the old cells, and
/// `pool` their values. It answers just the new cells, of the dimensions with a rule, that hold a dart touched in their
/// dimension, each once, ascending by dimension, then by least dart, with the value that the rule gives it. Every other new cell of these
/// dimensions keeps the value of its one id, or has none.
///
/// The touched darts are live, and those of a dimension with a rule cover the labels there: a new cell without one of them has
/// one id, which no other live dart has, or no id. All live darts do. Each id of a live dart is live in the pool. There is an
/// entry in `rules` for each dimension from 0 to `DIM`.
///
/// It costs the cells of the touched darts times a logarithm, whatever the size of the map.
pub fn carry<K: Kind, H: Hook, const DIM: usize>(
    alloc: Global,
    links: &Links<K, DIM>,
    labels: &Labels<DIM>,
    pool: &Pool,
    rules: &RuleRow,
    hook: &H,
    touched: &TouchedDarts,
) -> Result<Vec<Group>, AllocError>
    requires ready { H.ready hook.now }
    requires rules { length rules.now ≡ DIM + 1 }
    requires live { (i d : ℕ) → Contains (darts_in touched.now i) d → IsLive links.now.rows d }
    requires held { (i d id : ℕ) → IsLive links.now.rows d → id_of labels.now i d ≡ Some id → IsHeld pool.now id }
    requires covered { (i : ℕ) → IsSome (rule_at rules.now i)
        → Covers K.kind i (links_of links.now.rows) (IsLive links.now.rows) (id_of labels.now i) (Contains (darts_in touched.now i)) }
    ensures cells { IfOk result (λ groups.
        AreTouchedCells K.kind (links_of links.now.rows) rules.now (darts_in touched.now) groups.items) }
    ensures values { IfOk result (λ groups. (n : ℕ) → n < length groups.items
        → HasCarriedValue K.kind (links_of links.now.rows) (IsLive links.now.rows) (id_of labels.now) pool.now
        (H.hook hook.now) rules.now (group_at groups.items n)) }
    ensures others { OnOk result ((i d : ℕ) (rule : Rule) → rule_at rules.now i ≡ Some rule → IsLive links.now.rows d
        → ((x : ℕ) → InCell K.kind (links_of links.now.rows) i d x → Contains (darts_in touched.now i) x → ⊥)
        → IsCarried (meaning_of (H.hook hook.now) rule) (known_value pool.now (id_of labels.now i))
        (IsLive links.now.rows) (IsAlike (id_of labels.now i)) (InCell K.kind (links_of links.now.rows) i) d
        (labelled_value pool.now (id_of labels.now i d))) }
{
    see_values(pool);
    let mut groups = Vec::new(alloc);
    for dim in 0..links.dimension() + 1 {
        let cells = carried_cells(alloc, links, labels, pool, rules, hook, touched, dim)?;
        put_behind(&mut groups, cells)?;
    }
    Ok(groups)
}

/// Puts groups behind others. Where there are no others, they become the list as they stand.
#[inline(always)]
fn put_behind(groups: &mut Vec<Group>, cells: Vec<Group>) -> Result<(), AllocError>
    ensures { OnOk result (groups.new.items ≡ groups.old.items ++ cells.items) }
{
    if groups.is_empty() {
        *groups = cells;
        return Ok(());
    }
    let mut more = cells;
    groups.append(&mut more)?;
    Ok(())
}

/// The values under ids are within 64 bits: so it is in every pool.
fn see_values(pool: &Pool)
    ensures { HasRepresentable pool.now }
{
    let _ = pool.live_count();
}

/// The cells of one dimension that hold a dart touched there, with their values; none where the dimension has no rule.
fn carried_cells<K: Kind, H: Hook, const DIM: usize>(
    alloc: Global,
    links: &Links<K, DIM>,
    labels: &Labels<DIM>,
    pool: &Pool,
    rules: &RuleRow,
    hook: &H,
    touched: &TouchedDarts,
    dim: usize,
) -> Result<Vec<Group>, AllocError>
    requires dim { dim ≤ DIM }
    requires sound { IsSound K.kind DIM links.now.rows }
    requires ready { H.ready hook.now }
    requires rules { length rules.now ≡ DIM + 1 }
    requires live { (i d : ℕ) → Contains (darts_in touched.now i) d → IsLive links.now.rows d }
    requires held { (i d id : ℕ) → IsLive links.now.rows d → id_of labels.now i d ≡ Some id → IsHeld pool.now id }
    requires covered { (i : ℕ) → IsSome (rule_at rules.now i)
        → Covers K.kind i (links_of links.now.rows) (IsLive links.now.rows) (id_of labels.now i) (Contains (darts_in touched.now i)) }
    ensures { IfOk result (λ cells. AreAllOf
        (IsCarriedCell K.kind (links_of links.now.rows) (IsLive links.now.rows) (id_of labels.now) pool.now
        (H.hook hook.now) rules.now (darts_in touched.now))
        (IsWanted rules.now (darts_in touched.now)) (λ i. i ≡ dim) cells.items) }
{
    let Some(rule) = rules.rules[dim] else {
        return Ok(Vec::new(alloc));
    };
    let darts = touched.in_dim(dim);
    if darts.is_empty() {
        return Ok(Vec::new(alloc));
    }
    let mut cells = touched_cells(alloc, links, dim, darts)?;
    let pieces = pieces_of(alloc, labels, dim, &cells)?;
    let rule = RuleWith { rule, hook };
    merge_pieces(alloc, pool, &rule, &pieces, &mut cells)?;
    Ok(cells)
}
