//! Dimensions in which an edit can touch nothing, since no word of their cells follows a link that it changed.
ghost use Rattle.std.specs.Prelude.{◌↔◌, ◌⊎◌, Contains, IsTrue};
ghost use Rattle.map_defs.specs.Edits.{Change as LinkChange};
ghost use Rattle.valued_map.specs.Changing.{BeginBy, IsFollowed, LeadsBackIn, MayReroute};

use link_rows::{BornRows, Change, Links};
use map_kind::{Kind, is_generalized};

/// Whether an edit of these changes and rows of new darts may reroute a dart in a dimension: a change of a live dart that was
/// made before the edit, the darts up to the number `older`, and of a link that some word of the dimension's cells follows. The
/// rows are not looked through: they may where the first one is of such a dart, and where they lead back by such a link.
pub(crate) fn may_touch<K: Kind, const DIM: usize>(
    links: &Links<K, DIM>,
    changes: &[Change],
    born: &BornRows,
    older: u32,
    dim: usize,
) -> bool
    ensures { IsTrue result ↔ (BeginBy born.now older ⊎ (LeadsBackIn K.kind dim born.now
        ⊎ ((c : LinkChange) × Contains changes.now c × MayReroute K.kind dim links.now.rows older c))) }
{
    if born.begin_by(older) || leads_back_in::<K>(born, dim) {
        return true;
    }
    for change in changes {
        if may_reroute(links, older, dim, *change) {
            return true;
        }
    }
    false
}

/// Whether darts lead back to new ones by a link that some word of the cells of a dimension follows.
fn leads_back_in<K: Kind>(born: &BornRows, dim: usize) -> bool
    ensures { IsTrue result ↔ LeadsBackIn K.kind dim born.now }
{
    match born.back() {
        Some(link) => is_followed::<K>(dim, link),
        None => false,
    }
}

/// Whether a change of a link may reroute a dart in a dimension.
fn may_reroute<K: Kind, const DIM: usize>(
    links: &Links<K, DIM>,
    older: u32,
    dim: usize,
    change: Change,
) -> bool
    ensures { IsTrue result ↔ MayReroute K.kind dim links.now.rows older change }
{
    change.dart.number() <= older
        && is_followed::<K>(dim, change.link)
        && links.is_live(change.dart)
}

/// Whether some word of the cells of a dimension follows a link. In a generalized map these follow all links but that of the
/// dimension; in a combinatorial map those of the vertices follow all, those of the edges the links from 2 upwards.
fn is_followed<K: Kind>(dim: usize, link: usize) -> bool
    ensures { IsTrue result ↔ IsFollowed K.kind dim link }
{
    if is_generalized::<K>() {
        return link != dim;
    }
    match dim {
        0 => true,
        1 => link >= 2,
        _ => link != dim,
    }
}
