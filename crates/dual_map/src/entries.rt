//! The entries of the rows, and of those of the dual.
ghost use Rattle.std.specs.Prelude.{◌≡◌, ◌≤◌};
ghost use Rattle.map_defs.specs.Rows.{links_of};
ghost use Rattle.link_rows.specs.DualLinks.{dual_link};

use link_rows::Links;
use map_kind::{Dart, Kind, is_generalized};

/// The number of the dart to which two links lead, one after the other, 0 where one on the way is free.
fn number_beyond<K: Kind, const DIM: usize>(
    links: &Links<K, DIM>,
    dart: Dart,
    first: usize,
    second: usize,
) -> u32
    requires first { first ≤ DIM }
    requires second { second ≤ DIM }
    ensures { result ≡ links_of links.now.rows second (links_of links.now.rows first dart) }
{
    match links.link(dart, first) {
        Some(other) => links.number_at(other, second),
        None => 0,
    }
}

/// The number of the dart at a link of a dart in the dual, 0 where it is free there.
pub(crate) fn dual_number_at<K: Kind, const DIM: usize>(
    links: &Links<K, DIM>,
    dart: Dart,
    link: usize,
) -> u32
    requires { link ≤ DIM }
    ensures { result ≡ dual_link K.kind DIM (links_of links.now.rows) link dart }
{
    let dim = links.dimension();
    if is_generalized::<K>() {
        return links.number_at(dart, dim - link);
    }
    if link == 0 {
        number_beyond(links, dart, K::inverse(dim - 1), dim)
    } else if link == dim {
        links.number_at(dart, dim)
    } else {
        number_beyond(links, dart, dim, dim - link)
    }
}
