//! The edges of surfaces, found without walks and marks: whether a dart is the least of its edge is told by its row, and
//! by those of the darts at its links.
ghost use Rattle.std.specs.Prelude.{◌≡◌, ◌≢◌, ℕ, ◌<◌, ◌↔◌, [], ◌∷◌, ◌++◌, Contains, IsTrue, IfOk, IfSome, OnOk, if◌then◌else◌};
ghost use Rattle.std.specs.List.Sorted.{IsStrictlyIncreasing};
ghost use Rattle.map_defs.specs.Kind.{alpha};
ghost use Rattle.map_defs.specs.Rows.{IsLive, links_of};
ghost use Rattle.map_defs.specs.Cells.{NamesCell};

use crate::orbits::number_from;
use link_rows::Links;
use map_kind::{Dart, Kind, LinkWord, is_generalized};
use std::alloc::{AllocError, Global};

/// The least darts of the edges of a surface, ascending; none where an edge may have more than four darts, as two links
/// lead on from one of its darts to different darts, depending on which comes first. It is linear in the darts that were
/// made, and takes no memory but for what it answers.
pub(crate) fn surface_edges<K: Kind, const DIM: usize>(
    alloc: Global,
    links: &Links<K, DIM>,
) -> Result<Option<Vec<Dart>>, AllocError>
    requires { DIM ≡ 2 }
    ensures members { IfOk result (λ told. IfSome told (λ edges. (d : ℕ)
        → Contains edges.items d ↔ (IsLive links.now.rows d × NamesCell K.kind (links_of links.now.rows) 1 d))) }
    ensures ascending { IfOk result (λ told. IfSome told (λ edges. IsStrictlyIncreasing edges.items)) }
{
    let mut least = Vec::new(alloc);
    for number in 1..links.made() + 1 {
        let dart = Dart::new(number).unwrap();
        let Some(wanted) = names_edge(links, dart) else {
            return Ok(None);
        };
        push_if(wanted, dart, &mut least)?;
    }
    Ok(Some(least))
}

/// Whether a dart is live and the least of its edge; none where its edge may have more than four darts.
#[inline(always)]
fn names_edge<K: Kind, const DIM: usize>(links: &Links<K, DIM>, dart: Dart) -> Option<bool>
    requires { DIM ≡ 2 }
    ensures { IfSome result (λ names. IsTrue names
        ↔ (IsLive links.now.rows dart × NamesCell K.kind (links_of links.now.rows) 1 dart)) }
{
    if !links.is_live(dart) {
        return Some(false);
    }
    if is_generalized::<K>() {
        return names_ring(links, dart);
    }
    Some(!is_before(links.live_row(dart).entry(2), dart))
}

/// Whether a live dart of a generalized map is the least of its edge; none where link 0 and then link 2 lead to another
/// dart than link 2 and then link 0.
#[inline(always)]
fn names_ring<K: Kind, const DIM: usize>(links: &Links<K, DIM>, dart: Dart) -> Option<bool>
    requires surface { DIM ≡ 2 }
    requires kind { K.kind ≡ alpha }
    requires live { IsLive links.now.rows dart }
    ensures { IfSome result (λ names. IsTrue names ↔ NamesCell K.kind (links_of links.now.rows) 1 dart) }
{
    links.see_sound();
    let row = links.live_row(dart);
    if is_before(row.entry(0), dart) || is_before(row.entry(2), dart) {
        return Some(false);
    }
    let across = number_from(links, row, LinkWord::two(0, 2));
    if number_from(links, row, LinkWord::two(2, 0)) != across {
        return None;
    }
    Some(!is_before(across, dart))
}

/// Whether a number is that of a dart before another one. Taken down by one, 0, which is no dart's, is the greatest
/// number.
#[inline(always)]
fn is_before(number: u32, dart: Dart) -> bool
    ensures { IsTrue result ↔ ((number ≢ 0) × (number < dart)) }
{
    number.wrapping_sub(1) < dart.number() - 1
}

/// Puts a dart behind a list, if it is wanted.
#[inline(always)]
fn push_if(wanted: bool, dart: Dart, darts: &mut Vec<Dart>) -> Result<(), AllocError>
    ensures { OnOk result (darts.new.items ≡ (if wanted then darts.old.items ++ dart ∷ [] else darts.old.items)) }
{
    if wanted {
        darts.push(dart)?;
    }
    Ok(())
}
