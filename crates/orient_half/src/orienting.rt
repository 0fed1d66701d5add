ghost use Rattle.std.specs.Prelude.{ℕ, ◌+◌, ◌↔◌, IfOk, IfErr, OnOk, IfSome, IsErrOf};
ghost use Rattle.map_defs.specs.Rows.{made, links_of, IsLive};
ghost use Rattle.half_defs.specs.Orientation as orientation;
ghost use Rattle.half_defs.specs.Orientation.{HasBoundary, HasFault, AreSigns, IsOriented};
ghost use Rattle.orient_half.specs.SignLists.{IsListed};
ghost use Rattle.orient_half.specs.Searches.{IsSurveyed};
ghost use Rattle.orient_half.specs.Told.{told, IsOfSearch};

use crate::boundary::{first_fold, has_boundary};
use crate::fault::OrientFault;
use crate::search::{Search, spread};
use crate::sign::Sign;
use crate::walk::odd_walk;
use link_rows::Links;
use map_kind::{Alpha, Dart};
use std::alloc::{AllocError, Global};

/// The signs of the live darts of a generalized map without boundary and folds, ascending: each link leads from a positive
/// dart to one that is not, and back. The least dart of each component is positive, and so there are no other such signs.
///
/// `Boundary` comes exactly where some link of a live dart is free, and `Folded` exactly where none is and a link from 2
/// upwards leads where link 0 leads. These are looked for first, and take no memory. `Odd` tells a walk that no signs bear;
/// memory aside, it comes exactly where there is such a walk and neither boundary nor fold. It starts at the least dart of
/// its component, which is the first that has one.
///
/// Source: the textbook's orientable maps, whose darts fall into two classes that each link joins.
///
/// It costs a few steps for each link of the darts that were made.
pub fn orient<const DIM: usize>(
    alloc: Global,
    links: &Links<Alpha, DIM>,
) -> Result<Vec<Sign>, OrientFault>
    ensures signs { IfOk result (λ signs. IsOriented DIM (IsLive links.now.rows) (links_of links.now.rows) signs.items) }

    // Boundary and folds come exactly where they are there. So want of memory comes only of a map without them.
    ensures boundary { IsErrOf result OrientFault.Boundary ↔ HasBoundary DIM (IsLive links.now.rows) (links_of links.now.rows) }
    ensures folded { (d i : ℕ) → IsErrOf result (OrientFault.Folded d i)
        ↔ HasFault DIM (IsLive links.now.rows) (links_of links.now.rows) (orientation.Folded d i) }

    // Each fault that is told is there.
    ensures fault { IfErr result (λ fault. IfSome (told fault) (HasFault DIM (IsLive links.now.rows) (links_of links.now.rows))) }
{
    if has_boundary(links) {
        return Err(OrientFault::Boundary);
    }
    match first_fold(links) {
        Some(fold) => Err(OrientFault::Folded {
            dart: fold.dart,
            link: fold.link,
        }),
        None => sign_all(alloc, links),
    }
}

/// The signs of the live darts of a generalized map without boundary, if there are such.
fn sign_all<const DIM: usize>(
    alloc: Global,
    links: &Links<Alpha, DIM>,
) -> Result<Vec<Sign>, OrientFault>
    requires { HasBoundary DIM (IsLive links.now.rows) (links_of links.now.rows) → ⊥ }
    ensures signs { IfOk result (λ signs. AreSigns DIM (IsLive links.now.rows) (links_of links.now.rows) signs.items) }
    ensures fault { IfErr result (IsOfSearch DIM (IsLive links.now.rows) (links_of links.now.rows)) }
{
    let made = links.made();
    let mut search = Search::new(alloc, made)?;
    for number in 0..made {
        let dart = Dart::new(number + 1).unwrap();
        sign_from(alloc, links, dart, &mut search)?;
    }
    Ok(signs_of(alloc, links, &search)?)
}

/// Gives the darts of a dart's component their signs, if it is live and they have none.
fn sign_from<const DIM: usize>(
    alloc: Global,
    links: &Links<Alpha, DIM>,
    dart: Dart,
    search: &mut Search,
) -> Result<(), OrientFault>
    requires closed { HasBoundary DIM (IsLive links.now.rows) (links_of links.now.rows) → ⊥ }
    requires before { IsSurveyed DIM (IsLive links.now.rows) (links_of links.now.rows) dart search.old.marks.items }
    ensures after { OnOk result (IsSurveyed DIM (IsLive links.now.rows) (links_of links.now.rows) (dart + 1) search.new.marks.items) }
    ensures fault { IfErr result (IsOfSearch DIM (IsLive links.now.rows) (links_of links.now.rows)) }
{
    if search.mark_if_any(dart).is_some() {
        return Ok(());
    }
    if !links.is_live(dart) {
        return Ok(());
    }
    match spread(links, dart, search)? {
        None => Ok(()),
        Some(clash) => Err(OrientFault::Odd(odd_walk(alloc, links, search, dart, clash)?)),
    }
}

/// The signs of the live darts, all of which were reached, ascending.
fn signs_of<const DIM: usize>(
    alloc: Global,
    links: &Links<Alpha, DIM>,
    search: &Search,
) -> Result<Vec<Sign>, AllocError>
    requires { IsSurveyed DIM (IsLive links.now.rows) (links_of links.now.rows) (made links.now.rows + 1) search.now.marks.items }
    ensures { IfOk result (λ signs. IsListed search.now.marks.items (made links.now.rows + 1) signs.items) }
{
    let mut signs = Vec::with_capacity(alloc, links.live_count() as usize)?;
    for number in 0..links.made() {
        let dart = Dart::new(number + 1).unwrap();
        push_sign(search, dart, &mut signs)?;
    }
    Ok(signs)
}

/// Appends the sign of a dart, if it was reached.
fn push_sign(search: &Search, dart: Dart, signs: &mut Vec<Sign>) -> Result<(), AllocError>
    requires { IsListed search.now.marks.items dart signs.old.items }
    ensures { OnOk result (IsListed search.now.marks.items (dart + 1) signs.new.items) }
{
    let Some(reached) = search.mark_if_any(dart) else {
        return Ok(());
    };
    signs.push(Sign {
        dart,
        positive: reached.positive,
    })?;
    Ok(())
}
