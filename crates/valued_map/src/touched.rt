//! Which darts an edit touches.
ghost use Rattle.std.specs.Prelude.{◌≡◌, ◌≢◌, ℕ, ◌+◌, ◌≤◌, ◌<◌, ◌↔◌, ◌⊎◌, Contains, IsTrue, IsSome, IfSome, OnOk, slice_index};
ghost use Rattle.map_defs.specs.LinkWords.{LinkWord as MapWord, through, through_second, IsCellWord, IsWithin};
ghost use Rattle.map_defs.specs.Rows.{Rows, IsLive, IsSound, links_of, made};
ghost use Rattle.map_defs.specs.Edits.{Change as LinkChange, IsLed};
ghost use Rattle.valued_map.specs.Changing.{AreAdded, BeginBy, IsUnsettledFrom, IsUnsettledOf, IsFirstUnsettled, IsThenUnsettled, IsUnsettledAt};

use crate::settled::is_settled;
use attr_pool::Labels;
use link_rows::{BornRows, Change, Edit, Links, Row};
use map_kind::{Dart, Kind, LinkWord};
use std::alloc::AllocError;

/// How many changes of an edit are looked through for the link before it. Where an edit has more, each dart that a change may
/// have rerouted counts as touched, unless the link was free, so that the cost stays linear in the changes.
const FEW: usize = 64;

/// Whether few changes are looked through for that of a dart which lived before an edit.
fn has_few(edit: &Edit) -> bool {
    edit.changes.len() <= FEW && (edit.born.back().is_none() || edit.born.len() <= FEW)
}

/// Adds the darts that an edit touched in a dimension, whose words these are: those that lived before and that are not settled
/// along some word which leads elsewhere from them than before. Some may stand there more than once. The darts up to the
/// number `older` were made before the edit.
pub(crate) fn add_touched<K: Kind, const DIM: usize>(
    links: &Links<K, DIM>,
    labels: &Labels<DIM>,
    edit: &Edit,
    older: u32,
    dim: usize,
    words: &[LinkWord],
    touched: &mut Vec<Dart>,
) -> Result<(), AllocError>
    requires low { 2 ≤ DIM }
    requires sound { IsSound K.kind DIM links.now.rows }
    requires older { older + edit.now.births ≡ made links.now.rows }
    requires words { (w : MapWord) → Contains words.now w ↔ (IsCellWord K.kind dim w × IsWithin DIM w) }
    ensures { OnOk result (AreAdded links.now.rows (IsUnsettledFrom K.kind DIM edit.now links.now.rows dim labels.now)
        touched.old.items touched.new.items) }
{
    let told = if may_tell_of(&edit.born, older) {
        Some(edit.all_changes(*touched.allocator())?)
    } else {
        // The rows of new darts tell nothing of other darts then.
        None
    };
    let changes = match &told {
        Some(told) => told,
        None => &edit.changes,
    };
    add_at_changes(links, labels, edit, older, dim, words, changes, touched)
}

/// Whether rows of new darts may tell of darts up to a number: where they lead back, and where the first one is of such a dart.
fn may_tell_of(born: &BornRows, number: u32) -> bool
    ensures { IsTrue result ↔ (IsSome born.now.back ⊎ BeginBy born.now number) }
{
    born.back().is_some() || born.begin_by(number)
}

/// Adds the darts that are not settled along some words for some changes of links. The darts up to the number `older` were made
/// before the edit.
fn add_at_changes<K: Kind, const DIM: usize>(
    links: &Links<K, DIM>,
    labels: &Labels<DIM>,
    edit: &Edit,
    older: u32,
    dim: usize,
    words: &[LinkWord],
    changes: &[Change],
    touched: &mut Vec<Dart>,
) -> Result<(), AllocError>
    requires low { 2 ≤ DIM }
    requires sound { IsSound K.kind DIM links.now.rows }
    requires older { older + edit.now.births ≡ made links.now.rows }
    requires words { (w : MapWord) → Contains words.now w ↔ (IsCellWord K.kind dim w × IsWithin DIM w) }
    ensures { OnOk result (AreAdded links.now.rows (λ x. (c : LinkChange) × Contains changes.now c
        × IsUnsettledOf K.kind DIM edit.now links.now.rows dim labels.now c x) touched.old.items touched.new.items) }
{
    for change in changes {
        add_at_change(links, labels, edit, older, dim, words, *change, touched)?;
    }
    Ok(())
}

/// Adds the darts that are not settled along some words for a change of a link. A change of a dart that was born, or has ended,
/// tells nothing of other darts. The darts up to the number `older` were made before the edit.
fn add_at_change<K: Kind, const DIM: usize>(
    links: &Links<K, DIM>,
    labels: &Labels<DIM>,
    edit: &Edit,
    older: u32,
    dim: usize,
    words: &[LinkWord],
    change: Change,
    touched: &mut Vec<Dart>,
) -> Result<(), AllocError>
    requires low { 2 ≤ DIM }
    requires sound { IsSound K.kind DIM links.now.rows }
    requires older { older + edit.now.births ≡ made links.now.rows }
    requires words { (w : MapWord) → Contains words.now w ↔ (IsCellWord K.kind dim w × IsWithin DIM w) }
    ensures { OnOk result (AreAdded links.now.rows (λ x. (change.dart + edit.now.births ≤ made links.now.rows)
        × IsLive links.now.rows change.dart
        × ((w : MapWord) × Contains words.now w × IsUnsettledAt K.kind DIM edit.now links.now.rows dim labels.now w change x))
        touched.old.items touched.new.items) }
{
    if change.dart.number() > older || !links.is_live(change.dart) {
        return Ok(());
    }
    add_along_words(links, labels, edit, older, dim, words, change, touched)
}

/// Adds the darts that are not settled along some words for a change of a link of a live dart.
fn add_along_words<K: Kind, const DIM: usize>(
    links: &Links<K, DIM>,
    labels: &Labels<DIM>,
    edit: &Edit,
    older: u32,
    dim: usize,
    words: &[LinkWord],
    change: Change,
    touched: &mut Vec<Dart>,
) -> Result<(), AllocError>
    requires low { 2 ≤ DIM }
    requires sound { IsSound K.kind DIM links.now.rows }
    requires older { older + edit.now.births ≡ made links.now.rows }
    requires live { IsLive links.now.rows change.dart }
    requires words { (w : MapWord) → Contains words.now w ↔ (IsCellWord K.kind dim w × IsWithin DIM w) }
    ensures { OnOk result (AreAdded links.now.rows (λ x. (w : MapWord) × Contains words.now w
        × IsUnsettledAt K.kind DIM edit.now links.now.rows dim labels.now w change x) touched.old.items touched.new.items) }
{
    for word in words {
        add_along(
            links, labels, edit, older, dim, words, *word, change, touched,
        )?;
    }
    Ok(())
}

/// Adds the darts that are not settled along a word for a change of a link of a live dart.
fn add_along<K: Kind, const DIM: usize>(
    links: &Links<K, DIM>,
    labels: &Labels<DIM>,
    edit: &Edit,
    older: u32,
    dim: usize,
    words: &[LinkWord],
    word: LinkWord,
    change: Change,
    touched: &mut Vec<Dart>,
) -> Result<(), AllocError>
    requires low { 2 ≤ DIM }
    requires sound { IsSound K.kind DIM links.now.rows }
    requires older { older + edit.now.births ≡ made links.now.rows }
    requires live { IsLive links.now.rows change.dart }
    requires words { (w : MapWord) → Contains words.now w ↔ (IsCellWord K.kind dim w × IsWithin DIM w) }
    requires word { Contains words.now word }
    ensures { OnOk result (AreAdded links.now.rows (IsUnsettledAt K.kind DIM edit.now links.now.rows dim labels.now word change)
        touched.old.items touched.new.items) }
{
    add_at_first(links, labels, edit, dim, words, word, change, touched)?;
    add_at_second(
        links, labels, edit, older, dim, words, word, change, touched,
    )
}

/// Adds the changed dart, where a word follows the changed link first and then leads elsewhere than before, and the dart is
/// not settled along it.
fn add_at_first<K: Kind, const DIM: usize>(
    links: &Links<K, DIM>,
    labels: &Labels<DIM>,
    edit: &Edit,
    dim: usize,
    words: &[LinkWord],
    word: LinkWord,
    change: Change,
    touched: &mut Vec<Dart>,
) -> Result<(), AllocError>
    requires sound { IsSound K.kind DIM links.now.rows }
    requires live { IsLive links.now.rows change.dart }
    requires words { (w : MapWord) → Contains words.now w ↔ (IsCellWord K.kind dim w × IsWithin DIM w) }
    requires word { Contains words.now word }
    ensures { OnOk result (AreAdded links.now.rows (IsFirstUnsettled K.kind DIM edit.now links.now.rows dim labels.now word change)
        touched.old.items touched.new.items) }
{
    if word.first != change.link {
        return Ok(());
    }
    let Some(before) = led_to(links, edit, word.second, change.old) else {
        return add_live(links, change.dart.number(), touched);
    };
    let now = leads_to(links, word.second, change.new);
    if now == before {
        return Ok(());
    }
    if may_settle(labels, edit, dim, touched, change, change.dart)
        && is_settled(links, labels, dim, words, change.dart, now, before)
    {
        return Ok(());
    }
    touched.push(change.dart)?;
    Ok(())
}

/// Adds the dart from which a word comes to the changed dart, before and after, where it follows the changed link then and the
/// dart is not settled along it.
fn add_at_second<K: Kind, const DIM: usize>(
    links: &Links<K, DIM>,
    labels: &Labels<DIM>,
    edit: &Edit,
    older: u32,
    dim: usize,
    words: &[LinkWord],
    word: LinkWord,
    change: Change,
    touched: &mut Vec<Dart>,
) -> Result<(), AllocError>
    requires low { 2 ≤ DIM }
    requires sound { IsSound K.kind DIM links.now.rows }
    requires older { older + edit.now.births ≡ made links.now.rows }
    requires live { IsLive links.now.rows change.dart }
    requires words { (w : MapWord) → Contains words.now w ↔ (IsCellWord K.kind dim w × IsWithin DIM w) }
    requires word { Contains words.now word }
    ensures { OnOk result (AreAdded links.now.rows (IsThenUnsettled K.kind DIM edit.now links.now.rows dim labels.now word change)
        touched.old.items touched.new.items) }
{
    if word.second != Some(change.link) {
        return Ok(());
    }
    let Some(dart) = links.link(change.dart, K::inverse(word.first)) else {
        return Ok(());
    };
    if dart.number() > older {
        return Ok(());
    }
    if may_settle(labels, edit, dim, touched, change, dart)
        && is_settled(links, labels, dim, words, dart, change.new, change.old)
    {
        return Ok(());
    }
    if led_elsewhere(links, edit, dart, word.first, change.dart) {
        return Ok(());
    }
    touched.push(dart)?;
    Ok(())
}

/// Whether it is likely that a dart is settled which a change rerouted: it is not where the link became free, where the edit
/// ends darts, and where the dart added last has the same id, so that its cell was cut from that of the dart.
fn may_settle<const DIM: usize>(
    labels: &Labels<DIM>,
    edit: &Edit,
    dim: usize,
    touched: &[Dart],
    change: Change,
    dart: Dart,
) -> bool {
    change.new != 0 && edit.deaths.is_empty() && !has_last_id(labels, dim, touched, dart)
}

/// Whether a dart has an id, and the last of some darts has the same.
fn has_last_id<const DIM: usize>(
    labels: &Labels<DIM>,
    dim: usize,
    darts: &[Dart],
    dart: Dart,
) -> bool {
    let Some(last) = darts.last() else {
        return false;
    };
    let id = labels.id(dim, dart);
    id.is_some() && labels.id(dim, *last) == id
}

/// The number of the dart to which a link led from the dart of a number before an edit, if there is such a link, and else the
/// number itself; 0 for none. In an edit of many changes the link is not told.
fn led_to<K: Kind, const DIM: usize>(
    links: &Links<K, DIM>,
    edit: &Edit,
    link: Option<usize>,
    number: u32,
) -> Option<u32>
    requires sound { IsSound K.kind DIM links.now.rows }
    requires link { IfSome link (λ link. link ≤ DIM) }
    ensures { (old : Rows) → IsLed K.kind DIM edit.now old links.now.rows
        → IfSome result (λ before. before ≡ through_second (links_of old) link number) }
{
    let Some(link) = link else {
        return Some(number);
    };
    if number != 0 && !has_few(edit) {
        return None;
    }
    Some(number_before(links, edit, number, link))
}

/// The number of the dart to which a word leads a dart with this row; 0 for none.
pub(crate) fn number_along<K: Kind, const DIM: usize>(
    links: &Links<K, DIM>,
    word: LinkWord,
    row: &Row<DIM>,
    dart: Dart,
) -> u32
    requires row { (t : ℕ) → slice_index row.now t ≡ links_of links.now.rows t dart }
    requires word { IsWithin DIM word }
    ensures { result ≡ through (links_of links.now.rows) word dart }
{
    // Links name live darts.
    links.see_sound();
    leads_to(links, word.second, row.entry(word.first))
}

/// The number of the dart to which a link leads from the dart of a number, if there is such a link, and else the number itself;
/// 0 for none.
fn leads_to<K: Kind, const DIM: usize>(
    links: &Links<K, DIM>,
    link: Option<usize>,
    number: u32,
) -> u32
    requires sound { IsSound K.kind DIM links.now.rows }
    requires link { IfSome link (λ link. link ≤ DIM) }
    ensures { result ≡ through_second (links_of links.now.rows) link number }
{
    let Some(link) = link else {
        return number;
    };
    number_now(links, number, link)
}

/// The number of the dart at a link of the dart of a number; 0 for none, and for the number 0.
fn number_now<K: Kind, const DIM: usize>(links: &Links<K, DIM>, number: u32, link: usize) -> u32
    requires sound { IsSound K.kind DIM links.now.rows }
    requires link { link ≤ DIM }
    ensures { result ≡ links_of links.now.rows link number }
{
    match Dart::new(number) {
        Some(dart) => links.number_at(dart, link),
        None => 0,
    }
}

/// Whether a link of a dart led elsewhere than to another dart before an edit; in an edit of many changes, that is not told.
fn led_elsewhere<K: Kind, const DIM: usize>(
    links: &Links<K, DIM>,
    edit: &Edit,
    dart: Dart,
    link: usize,
    other: Dart,
) -> bool
    requires sound { IsSound K.kind DIM links.now.rows }
    requires link { link ≤ DIM }
    ensures { (old : Rows) → IsLed K.kind DIM edit.now old links.now.rows → IsTrue result → links_of old link dart ≢ other }
{
    has_few(edit) && number_before(links, edit, dart.number(), link) != other.number()
}

/// The number of the dart that stood at a link of the dart of a number before an edit; 0 for none, and for the number 0.
fn number_before<K: Kind, const DIM: usize>(
    links: &Links<K, DIM>,
    edit: &Edit,
    number: u32,
    link: usize,
) -> u32
    requires sound { IsSound K.kind DIM links.now.rows }
    requires link { link ≤ DIM }
    ensures { (old : Rows) → IsLed K.kind DIM edit.now old links.now.rows → result ≡ links_of old link number }
{
    let Some(dart) = Dart::new(number) else {
        return 0;
    };
    match edit.change_of(dart, link) {
        Some(change) => change.old,
        None => links.number_at(dart, link),
    }
}

/// Adds the dart of a number, if it is live.
pub(crate) fn add_live<K: Kind, const DIM: usize>(
    links: &Links<K, DIM>,
    number: u32,
    touched: &mut Vec<Dart>,
) -> Result<(), AllocError>
    requires { IsSound K.kind DIM links.now.rows }
    ensures { OnOk result (AreAdded links.now.rows (λ x. x ≡ number) touched.old.items touched.new.items) }
{
    let Some(dart) = Dart::new(number) else {
        return Ok(());
    };
    if !links.is_live(dart) {
        return Ok(());
    }
    touched.push(dart)?;
    Ok(())
}
