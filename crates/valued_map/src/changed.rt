//! The darts whose cells an edit may have changed. A cell that only gains darts just born is none of these: they are given its
//! id, and nothing else of it is looked at.
ghost use Rattle.std.specs.Prelude.{◌≡◌, ◌≢◌, ◌↔◌, ℕ, ◌+◌, ◌-◌, ◌≤◌, ◌<◌, length, map, Contains, IsTrue, false, IsNone, IsSome, IfOk, IfSome, Some, None, OnOk, slice_index};
ghost use Rattle.map_defs.specs.LinkWords.{LinkWord as MapWord, through, IsCellWord, IsWithin};
ghost use Rattle.map_defs.specs.Rows.{IsLive, IsSound, links_of, made};
ghost use Rattle.map_defs.specs.Cells.{InCell};
ghost use Rattle.store_defs.specs.Labelings.{id_of, HasPlaces};
ghost use Rattle.store_defs.specs.Groups.{darts_in, rule_at};
ghost use Rattle.label_laws.specs.Touching.{AreGrafted, IsJoinedApart};
ghost use Rattle.valued_map.specs.Changing.{AreAdded, IsListPut, IsLowerAlong, IsApartAlong, IsApartFrom, LeadsApart, IsBeside, IsJoinedFrom, IsMovedIn, IsChangedIn};

use crate::kept::Kept;
use crate::passing::may_touch;
use crate::rules::has_rule;
use crate::touched::{add_live, add_touched, number_along};
use attr_pool::{AttrId, Labels};
use cell_walk::surface_words;
use link_rows::{Edit, Links, Row};
use map_kind::{Dart, Kind, LinkWord};
use std::alloc::{AllocError, Global};
use transport::{RuleRow, TouchedDarts};

/// The darts whose cells an edit may have changed, in each dimension with a rule. The links are those after the edit. Darts that
/// were born are given the ids of cells that they joined.
pub(crate) fn changed_darts<K: Kind, const DIM: usize>(
    alloc: Global,
    links: &Links<K, DIM>,
    labels: &mut Labels<DIM>,
    rules: &RuleRow,
    edit: &Edit,
    kept: Kept,
) -> Result<TouchedDarts, AllocError>
    requires births { edit.now.births ≤ made links.now.rows }
    requires rules { length rules.now ≡ DIM + 1 }
    requires long { made links.now.rows ≤ labels.old.made }
    requires placed { (i : ℕ) → IsSome (rule_at rules.now i) → HasPlaces labels.old i }
    requires bare { (i d : ℕ) → made links.now.rows - edit.now.births < d → id_of labels.old i d ≡ None }
    ensures grafted { AreGrafted K.kind links.now.rows (made links.now.rows - edit.now.births) (λ i. IsSome (rule_at rules.now i)) labels.old labels.new }
    ensures live { IfOk result (λ changed. (i x : ℕ) → Contains (darts_in changed i) x → IsLive links.now.rows x) }
    ensures all { IfOk result (λ changed. (i x : ℕ)
        → IsChangedIn K.kind DIM edit.now links.now.rows rules.now kept labels.new i x → Contains (darts_in changed i) x) }
{
    let mut by_dim = Vec::new(alloc);
    for dim in 0..links.dimension() + 1 {
        let darts = ruled_darts(alloc, links, labels, rules, edit, kept, dim)?;
        if darts.is_empty() {
            continue;
        }
        put_list(alloc, dim, darts, &mut by_dim)?;
    }
    Ok(TouchedDarts { by_dim })
}

/// Puts darts into the list of a dimension, behind those of lesser ones.
fn put_list(
    alloc: Global,
    dim: usize,
    darts: Vec<Dart>,
    lists: &mut Vec<Vec<Dart>>,
) -> Result<(), AllocError>
    requires { length lists.old.items ≤ dim }
    ensures { OnOk result (IsListPut dim darts.items (map (λ ds. ds.items) lists.old.items) (map (λ ds. ds.items) lists.new.items)) }
{
    for _place in lists.len()..dim {
        lists.push(Vec::new(alloc))?;
    }
    lists.push(darts)?;
    Ok(())
}

/// The darts whose cells an edit may have changed in a dimension; none where it has no rule.
fn ruled_darts<K: Kind, const DIM: usize>(
    alloc: Global,
    links: &Links<K, DIM>,
    labels: &mut Labels<DIM>,
    rules: &RuleRow,
    edit: &Edit,
    kept: Kept,
    dim: usize,
) -> Result<Vec<Dart>, AllocError>
    requires births { edit.now.births ≤ made links.now.rows }
    requires dim { dim ≤ DIM }
    requires long { made links.now.rows ≤ labels.old.made }
    requires placed { IsSome (rule_at rules.now dim) → HasPlaces labels.old dim }
    requires bare { (d : ℕ) → made links.now.rows - edit.now.births < d → id_of labels.old dim d ≡ None }
    ensures grafted { AreGrafted K.kind links.now.rows (made links.now.rows - edit.now.births) (λ i. (i ≡ dim) × IsSome (rule_at rules.now i)) labels.old labels.new }
    ensures live { IfOk result (λ changed. (x : ℕ) → Contains changed.items x → IsLive links.now.rows x) }
    ensures all { IfOk result (λ changed. (x : ℕ)
        → IsChangedIn K.kind DIM edit.now links.now.rows rules.now kept labels.new dim x → Contains changed.items x) }
{
    if !has_rule(rules, dim) {
        return Ok(Vec::new(alloc));
    }
    changed_in(alloc, links, labels, edit, kept, dim)
}

/// The darts whose cells an edit may have changed in a dimension. Where its cells are not kept, and no change is of a link that
/// words of its cells follow, no list is made.
fn changed_in<K: Kind, const DIM: usize>(
    alloc: Global,
    links: &Links<K, DIM>,
    labels: &mut Labels<DIM>,
    edit: &Edit,
    kept: Kept,
    dim: usize,
) -> Result<Vec<Dart>, AllocError>
    requires births { edit.now.births ≤ made links.now.rows }
    requires dim { dim ≤ DIM }
    requires long { made links.now.rows ≤ labels.old.made }
    requires placed { HasPlaces labels.old dim }
    requires bare { (d : ℕ) → made links.now.rows - edit.now.births < d → id_of labels.old dim d ≡ None }
    ensures grafted { AreGrafted K.kind links.now.rows (made links.now.rows - edit.now.births) (λ i. i ≡ dim) labels.old labels.new }
    ensures live { IfOk result (λ changed. (x : ℕ) → Contains changed.items x → IsLive links.now.rows x) }
    ensures all { IfOk result (λ changed. (x : ℕ)
        → IsMovedIn K.kind DIM edit.now links.now.rows kept labels.new dim x → Contains changed.items x) }
{
    let older = links.made() - edit.births;
    if !kept.has(dim) && !may_touch(links, &edit.changes, &edit.born, older, dim) {
        return Ok(Vec::new(alloc));
    }
    if links.dimension() == 2 {
        let words = surface_words::<K>(dim);
        return changed_along(alloc, links, labels, edit, kept, older, dim, &words);
    }
    let words = K::words(alloc, links.dimension(), dim)?;
    changed_along(alloc, links, labels, edit, kept, older, dim, &words)
}

/// The darts whose cells an edit may have changed in a dimension, the words of whose cells these are. Where the cells are kept,
/// these are among the darts that were born alone. The darts up to the number `older` were made before the edit.
fn changed_along<K: Kind, const DIM: usize>(
    alloc: Global,
    links: &Links<K, DIM>,
    labels: &mut Labels<DIM>,
    edit: &Edit,
    kept: Kept,
    older: u32,
    dim: usize,
    words: &[LinkWord],
) -> Result<Vec<Dart>, AllocError>
    requires older { older + edit.now.births ≡ made links.now.rows }
    requires sound { IsSound K.kind DIM links.now.rows }
    requires low { 2 ≤ DIM }
    requires dim { dim ≤ DIM }
    requires long { made links.now.rows ≤ labels.old.made }
    requires placed { HasPlaces labels.old dim }
    requires bare { (d : ℕ) → older < d → id_of labels.old dim d ≡ None }
    requires words { (w : MapWord) → Contains words.now w ↔ (IsCellWord K.kind dim w × IsWithin DIM w) }
    ensures grafted { AreGrafted K.kind links.now.rows older (λ i. i ≡ dim) labels.old labels.new }
    ensures live { IfOk result (λ changed. (x : ℕ) → Contains changed.items x → IsLive links.now.rows x) }
    ensures all { IfOk result (λ changed. (x : ℕ)
        → IsMovedIn K.kind DIM edit.now links.now.rows kept labels.new dim x → Contains changed.items x) }
{
    let mut touched = Vec::new(alloc);
    if kept.has(dim) {
        let last = older + edit.births.saturating_sub(kept.aside);
        graft_kept(links, labels, older, last, dim, words, &mut touched)?;
        return Ok(touched);
    }
    let last = links.made();
    graft_born(links, labels, older, last, dim, words, &mut touched)?;
    add_touched(links, labels, edit, older, dim, words, &mut touched)?;
    Ok(touched)
}

/// Gives each dart beyond a number, up to the last, an id of a cell that it joined, where the cells of the darts up to that number are
/// kept, and adds those that joined apart. As long as darts up to the number lie beside the others, the ids of these do not differ, and
/// are not compared. Beyond the last, darts lie in cells of their own, and get no ids.
fn graft_kept<K: Kind, const DIM: usize>(
    links: &Links<K, DIM>,
    labels: &mut Labels<DIM>,
    older: u32,
    last: u32,
    dim: usize,
    words: &[LinkWord],
    touched: &mut Vec<Dart>,
) -> Result<(), AllocError>
    requires sound { IsSound K.kind DIM links.now.rows }
    requires older { older ≤ last }
    requires last { last ≤ made links.now.rows }
    requires dim { dim ≤ DIM }
    requires long { made links.now.rows ≤ labels.old.made }
    requires placed { HasPlaces labels.old dim }
    requires bare { (d : ℕ) → older < d → id_of labels.old dim d ≡ None }
    requires words { (w : MapWord) → Contains words.now w ↔ (IsCellWord K.kind dim w × IsWithin DIM w) }
    ensures grafted { AreGrafted K.kind links.now.rows older (λ i. i ≡ dim) labels.old labels.new }
    ensures added { OnOk result (AreAdded links.now.rows (IsJoinedFrom K.kind dim links.now.rows older last labels.new) touched.old.items touched.new.items) }
{
    let beside = graft_beside(links, labels, older, last, dim, words);
    graft_born(links, labels, beside, last, dim, words, touched)
}

/// Gives the darts beyond a number, up to the last, the ids of darts up to it that lie beside them, in turn, up to the first beside which
/// none lies. Answers the number up to which it came.
fn graft_beside<K: Kind, const DIM: usize>(
    links: &Links<K, DIM>,
    labels: &mut Labels<DIM>,
    older: u32,
    last: u32,
    dim: usize,
    words: &[LinkWord],
) -> u32
    requires sound { IsSound K.kind DIM links.now.rows }
    requires older { older ≤ last }
    requires last { last ≤ made links.now.rows }
    requires dim { dim ≤ DIM }
    requires long { made links.now.rows ≤ labels.old.made }
    requires placed { HasPlaces labels.old dim }
    requires bare { (d : ℕ) → older < d → id_of labels.old dim d ≡ None }
    requires words { (w : MapWord) → Contains words.now w ↔ (IsCellWord K.kind dim w × IsWithin DIM w) }
    ensures from { older ≤ result }
    ensures to { result ≤ last }
    ensures grafted { AreGrafted K.kind links.now.rows older (λ i. i ≡ dim) labels.old labels.new }
    ensures bare { (d : ℕ) → result < d → id_of labels.new dim d ≡ None }
    ensures beside { (x : ℕ) → older < x → x ≤ result → IsBeside K.kind dim links.now.rows older labels.new x }
{
    for number in older + 1..last + 1 {
        if !join_older(links, labels, older, dim, words, number) {
            return number - 1;
        }
    }
    last
}

/// Gives the dart of a number the id of a dart up to the number `older` to which some word leads it, if there is one. Answers
/// whether there is.
fn join_older<K: Kind, const DIM: usize>(
    links: &Links<K, DIM>,
    labels: &mut Labels<DIM>,
    older: u32,
    dim: usize,
    words: &[LinkWord],
    number: u32,
) -> bool
    requires dim { dim ≤ DIM }
    requires high { older < number }
    requires number { number ≤ labels.old.made }
    requires placed { HasPlaces labels.old dim }
    requires bare { id_of labels.old dim number ≡ None }
    requires words { (w : MapWord) → Contains words.now w ↔ (IsCellWord K.kind dim w × IsWithin DIM w) }
    ensures grafted { AreGrafted K.kind links.now.rows older (λ i. i ≡ dim) labels.old labels.new }
    ensures others { (j d : ℕ) → d ≢ number → id_of labels.new j d ≡ id_of labels.old j d }
    ensures beside { IsTrue result → IsBeside K.kind dim links.now.rows older labels.new number }
    ensures none { result ≡ false → labels.new ≡ labels.old }
{
    // A map has links 0 to 8 at most.
    links.see_sound();
    let Some(dart) = Dart::new(number) else {
        return false;
    };
    let Some(row) = links.row(dart) else {
        return false;
    };
    let Some(other) = older_along(links, older, words, row, dart) else {
        return false;
    };
    let id = labels.id(dim, other);
    labels.put(dim, dart, id);
    true
}

/// The dart up to a number to which the first word leads that leads a dart with this row to one, if there is one.
fn older_along<K: Kind, const DIM: usize>(
    links: &Links<K, DIM>,
    older: u32,
    words: &[LinkWord],
    row: &Row<DIM>,
    dart: Dart,
) -> Option<Dart>
    requires row { (t : ℕ) → slice_index row.now t ≡ links_of links.now.rows t dart }
    requires words { (w : MapWord) → Contains words.now w → IsWithin DIM w }
    ensures { IfSome result (λ other. (w : MapWord) × Contains words.now w × (other ≡ through (links_of links.now.rows) w dart) × (other ≢ 0) × (other ≤ older)) }
{
    // A map has links 0 to 8 at most.
    links.see_sound();
    for word in words {
        let number = number_along(links, *word, row, dart);
        if number != 0 && number <= older {
            return Dart::new(number);
        }
    }
    None
}

/// Gives each dart beyond a number, up to the last, an id of a cell that it joined, and adds those from which some word leads to a
/// lesser dart with another id.
fn graft_born<K: Kind, const DIM: usize>(
    links: &Links<K, DIM>,
    labels: &mut Labels<DIM>,
    older: u32,
    last: u32,
    dim: usize,
    words: &[LinkWord],
    touched: &mut Vec<Dart>,
) -> Result<(), AllocError>
    requires sound { IsSound K.kind DIM links.now.rows }
    requires older { older ≤ last }
    requires last { last ≤ made links.now.rows }
    requires dim { dim ≤ DIM }
    requires long { made links.now.rows ≤ labels.old.made }
    requires placed { HasPlaces labels.old dim }
    requires bare { (d : ℕ) → older < d → id_of labels.old dim d ≡ None }
    requires words { (w : MapWord) → Contains words.now w ↔ (IsCellWord K.kind dim w × IsWithin DIM w) }
    ensures grafted { AreGrafted K.kind links.now.rows older (λ i. i ≡ dim) labels.old labels.new }
    ensures added { OnOk result (AreAdded links.now.rows (λ x. (x ≤ last) × IsJoinedApart K.kind dim links.now.rows older labels.new x)
        touched.old.items touched.new.items) }
{
    for number in older + 1..last + 1 {
        graft(links, labels, dim, words, number, touched)?;
    }
    Ok(())
}

/// Gives the dart of a number an id of a lesser dart to which some word leads it, if there is one, and adds it where some word
/// leads it to a lesser dart with another id. The darts from it on have no ids yet.
fn graft<K: Kind, const DIM: usize>(
    links: &Links<K, DIM>,
    labels: &mut Labels<DIM>,
    dim: usize,
    words: &[LinkWord],
    number: u32,
    touched: &mut Vec<Dart>,
) -> Result<(), AllocError>
    requires sound { IsSound K.kind DIM links.now.rows }
    requires dim { dim ≤ DIM }
    requires number { number ≤ labels.old.made }
    requires placed { HasPlaces labels.old dim }
    requires bare { (d : ℕ) → number ≤ d → id_of labels.old dim d ≡ None }
    requires words { (w : MapWord) → Contains words.now w ↔ (IsCellWord K.kind dim w × IsWithin DIM w) }
    ensures grafted { (older : ℕ) → older < number → AreGrafted K.kind links.now.rows older (λ i. i ≡ dim) labels.old labels.new }
    ensures others { (j d : ℕ) → d ≢ number → id_of labels.new j d ≡ id_of labels.old j d }
    ensures added { OnOk result (AreAdded links.now.rows (λ x. (x ≡ number) × LeadsApart K.kind dim links.now.rows labels.new x) touched.old.items touched.new.items) }
{
    // A map has links 0 to 8 at most.
    links.see_sound();
    let Some(dart) = Dart::new(number) else {
        return Ok(());
    };
    let Some(row) = links.row(dart) else {
        return Ok(());
    };
    for (index, word) in words.iter().enumerate() {
        if let Some(lesser) = lesser_along(links, *word, row, dart) {
            let behind = &words[index + 1..];
            return join(links, labels, dim, behind, row, dart, lesser, touched);
        }
    }
    Ok(())
}

/// The lesser dart to which a word leads a dart with this row, if it leads to one.
fn lesser_along<K: Kind, const DIM: usize>(
    links: &Links<K, DIM>,
    word: LinkWord,
    row: &Row<DIM>,
    dart: Dart,
) -> Option<Dart>
    requires row { (t : ℕ) → slice_index row.now t ≡ links_of links.now.rows t dart }
    requires word { IsWithin DIM word }
    ensures none { IsNone result → IsLowerAlong links.now.rows word dart → ⊥ }
    ensures some { IfSome result (λ lesser. (lesser ≡ through (links_of links.now.rows) word dart) × IsLowerAlong links.now.rows word dart) }
{
    let number = number_along(links, word, row, dart);
    if number >= dart.number() {
        return None;
    }
    Dart::new(number)
}

/// Gives a dart with this row the id of a lesser dart of its cell, or else one of a dart to which some words lead it, and adds
/// it where that lesser dart, or one to which a word leads, has another id.
fn join<K: Kind, const DIM: usize>(
    links: &Links<K, DIM>,
    labels: &mut Labels<DIM>,
    dim: usize,
    words: &[LinkWord],
    row: &Row<DIM>,
    dart: Dart,
    lesser: Dart,
    touched: &mut Vec<Dart>,
) -> Result<(), AllocError>
    requires sound { IsSound K.kind DIM links.now.rows }
    requires dim { dim ≤ DIM }
    requires dart { dart ≤ labels.old.made }
    requires placed { HasPlaces labels.old dim }
    requires bare { id_of labels.old dim dart ≡ None }
    requires row { (t : ℕ) → slice_index row.now t ≡ links_of links.now.rows t dart }
    requires words { (w : MapWord) → Contains words.now w → IsCellWord K.kind dim w × IsWithin DIM w }
    requires lesser { lesser < dart }
    requires cell { InCell K.kind (links_of links.now.rows) dim dart lesser }
    ensures grafted { (older : ℕ) → older < dart → AreGrafted K.kind links.now.rows older (λ i. i ≡ dim) labels.old labels.new }
    ensures others { (j d : ℕ) → d ≢ dart → id_of labels.new j d ≡ id_of labels.old j d }
    ensures added { OnOk result (AreAdded links.now.rows (λ x. (x ≡ dart)
        × IsApartFrom links.now.rows labels.new dim (Contains words.now) lesser dart) touched.old.items touched.new.items) }
{
    let Some(id) = labels.id(dim, lesser) else {
        return join_apart(links, labels, dim, words, row, dart, touched);
    };
    labels.put(dim, dart, Some(id));
    // A map has links 0 to 8 at most.
    links.see_sound();
    if !leads_apart(links, labels, dim, words, row, dart, id) {
        return Ok(());
    }
    add_live(links, dart.number(), touched)
}

/// Gives a dart with this row the id of a dart to which some words lead it, if one of these has an id, and adds it then.
fn join_apart<K: Kind, const DIM: usize>(
    links: &Links<K, DIM>,
    labels: &mut Labels<DIM>,
    dim: usize,
    words: &[LinkWord],
    row: &Row<DIM>,
    dart: Dart,
    touched: &mut Vec<Dart>,
) -> Result<(), AllocError>
    requires sound { IsSound K.kind DIM links.now.rows }
    requires dim { dim ≤ DIM }
    requires dart { dart ≤ labels.old.made }
    requires placed { HasPlaces labels.old dim }
    requires bare { id_of labels.old dim dart ≡ None }
    requires row { (t : ℕ) → slice_index row.now t ≡ links_of links.now.rows t dart }
    requires words { (w : MapWord) → Contains words.now w → IsCellWord K.kind dim w × IsWithin DIM w }
    ensures grafted { (older : ℕ) → older < dart → AreGrafted K.kind links.now.rows older (λ i. i ≡ dim) labels.old labels.new }
    ensures others { (j d : ℕ) → d ≢ dart → id_of labels.new j d ≡ id_of labels.old j d }
    ensures bare { id_of labels.new dim dart ≡ None → (w : MapWord) → Contains words.now w → through (links_of links.now.rows) w dart ≢ 0
        → id_of labels.new dim (through (links_of links.now.rows) w dart) ≡ None }
    ensures added { OnOk result (AreAdded links.now.rows (λ x. (x ≡ dart) × (id_of labels.new dim dart ≢ None)) touched.old.items touched.new.items) }
{
    // A map has links 0 to 8 at most.
    links.see_sound();
    let Some(id) = id_beside(links, labels, dim, words, row, dart) else {
        return Ok(());
    };
    labels.put(dim, dart, Some(id));
    add_live(links, dart.number(), touched)
}

/// The id of a dart to which one of some words leads a dart, if one of these has an id. The dart has this row.
fn id_beside<K: Kind, const DIM: usize>(
    links: &Links<K, DIM>,
    labels: &Labels<DIM>,
    dim: usize,
    words: &[LinkWord],
    row: &Row<DIM>,
    dart: Dart,
) -> Option<AttrId>
    requires row { (t : ℕ) → slice_index row.now t ≡ links_of links.now.rows t dart }
    requires words { (w : MapWord) → Contains words.now w → IsWithin DIM w }
    ensures none { IsNone result → (w : MapWord) → Contains words.now w → through (links_of links.now.rows) w dart ≢ 0
        → id_of labels.now dim (through (links_of links.now.rows) w dart) ≡ None }
    ensures some { IfSome result (λ id. (w : MapWord) × Contains words.now w × (through (links_of links.now.rows) w dart ≢ 0)
        × (id_of labels.now dim (through (links_of links.now.rows) w dart) ≡ Some id)) }
{
    // A map has links 0 to 8 at most.
    links.see_sound();
    for word in words {
        let id = id_along(links, labels, dim, *word, row, dart);
        if id.is_some() {
            return id;
        }
    }
    None
}

/// The id of the dart to which a word leads a dart with this row, if there is one and it has an id.
fn id_along<K: Kind, const DIM: usize>(
    links: &Links<K, DIM>,
    labels: &Labels<DIM>,
    dim: usize,
    word: LinkWord,
    row: &Row<DIM>,
    dart: Dart,
) -> Option<AttrId>
    requires row { (t : ℕ) → slice_index row.now t ≡ links_of links.now.rows t dart }
    requires word { IsWithin DIM word }
    ensures none { IsNone result → through (links_of links.now.rows) word dart ≢ 0
        → id_of labels.now dim (through (links_of links.now.rows) word dart) ≡ None }
    ensures some { IfSome result (λ id. (through (links_of links.now.rows) word dart ≢ 0)
        × (id_of labels.now dim (through (links_of links.now.rows) word dart) ≡ Some id)) }
{
    labels.id(dim, Dart::new(number_along(links, word, row, dart))?)
}

/// Whether one of some words leads a dart with this row and this id to a lesser one with another id in a dimension.
fn leads_apart<K: Kind, const DIM: usize>(
    links: &Links<K, DIM>,
    labels: &Labels<DIM>,
    dim: usize,
    words: &[LinkWord],
    row: &Row<DIM>,
    dart: Dart,
    id: AttrId,
) -> bool
    requires row { (t : ℕ) → slice_index row.now t ≡ links_of links.now.rows t dart }
    requires id { id_of labels.now dim dart ≡ Some id }
    requires words { (w : MapWord) → Contains words.now w → IsWithin DIM w }
    ensures { (w : MapWord) → Contains words.now w → IsApartAlong links.now.rows labels.now dim w dart → IsTrue result }
{
    // A map has links 0 to 8 at most.
    links.see_sound();
    for word in words {
        if leads_to_another(links, labels, dim, *word, row, dart, id) {
            return true;
        }
    }
    false
}

/// Whether a word leads a dart with this row and this id to a lesser one with another id in a dimension.
fn leads_to_another<K: Kind, const DIM: usize>(
    links: &Links<K, DIM>,
    labels: &Labels<DIM>,
    dim: usize,
    word: LinkWord,
    row: &Row<DIM>,
    dart: Dart,
    id: AttrId,
) -> bool
    requires row { (t : ℕ) → slice_index row.now t ≡ links_of links.now.rows t dart }
    requires id { id_of labels.now dim dart ≡ Some id }
    requires word { IsWithin DIM word }
    ensures { IsApartAlong links.now.rows labels.now dim word dart → IsTrue result }
{
    let Some(other) = Dart::new(number_along(links, word, row, dart)) else {
        return false;
    };
    other.number() < dart.number() && labels.id(dim, other) != Some(id)
}
