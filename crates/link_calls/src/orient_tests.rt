ghost use Rattle.std.specs.Prelude.{◌≡◌, ◌≤◌};
ghost use Rattle.map_defs.specs.Kind.{alpha};
ghost use Rattle.map_defs.specs.Rows.{links_of};
ghost use Rattle.map_defs.specs.Laws.{Laws};

use link_rows::{Links, polygon_edit};
use map_kind::{Alpha, Dart, Kind};
use orient_half::{OrientFault, orient};
use sewing::sew_plan;
use std::alloc::Global;
use std::process::Abort;
use std::test::Fail;

/// Makes a polygon of so many sides.
fn polygon(rt: &impl Abort, alloc: Global, links: &mut Links<Alpha, 2>, sides: u32)
    requires low { 3 ≤ sides }
    requires high { sides ≤ 65536 }
    requires laws { Laws alpha (links_of links.old.rows) }
    ensures { Laws alpha (links_of links.new.rows) }
{
    match links.reserve(2 * sides) {
        Ok(()) => {}
        Err(_) => panic!(rt; "no room"),
    }
    match polygon_edit(alloc, links, sides) {
        Ok(edit) => links.apply(&edit),
        Err(_) => panic!(rt; "no memory"),
    }
}

/// Sews two darts at link 2.
pub(crate) fn sew<K: Kind>(
    rt: &impl Abort,
    alloc: Global,
    links: &mut Links<K, 2>,
    one: u32,
    other: u32,
)
    requires { Laws K.kind (links_of links.old.rows) }
    ensures { Laws K.kind (links_of links.new.rows) }
{
    let one = Dart::new(one).expect(rt, "0 is no dart");
    let other = Dart::new(other).expect(rt, "0 is no dart");
    assert!(rt; links.is_live(one));
    assert!(rt; links.is_live(other));
    match sew_plan(alloc, links, 2, one, other) {
        Ok(edit) => links.apply(&edit),
        Err(_) => panic!(rt; "not sewn"),
    }
}

/// Makes a square with its opposite sides sewn: a torus, or a Klein bottle if one pair of sides is turned over. Its darts are
/// numbered on from `first`.
pub(crate) fn sewn_square(
    rt: &impl Abort,
    alloc: Global,
    links: &mut Links<Alpha, 2>,
    first: u32,
    turned: bool,
)
    requires first { first ≤ 9 }
    requires laws { Laws alpha (links_of links.old.rows) }
    ensures { Laws alpha (links_of links.new.rows) }
{
    polygon(rt, alloc, links, 4);
    let opposite = if turned { first + 4 } else { first + 5 };
    sew(rt, alloc, links, first, opposite);
    sew(rt, alloc, links, first + 2, first + 7);
}

#[test]
fn map_without_darts_has_no_signs(rt: HostRuntime) -> Result<(), Fail> {
    let alloc = rt.alloc();
    let links = Links::<Alpha, 3>::new(alloc);
    assert!(&rt; orient(alloc, &links)?.is_empty());
    Ok(())
}

// Link 1 leads from dart 8 to dart 1, and all links between darts whose numbers are both even or both odd are missing.
#[test]
fn darts_of_a_torus_take_turns(rt: HostRuntime) -> Result<(), Fail> {
    let alloc = rt.alloc();
    let mut links = Links::<Alpha, 2>::new(alloc);
    sewn_square(&rt, alloc, &mut links, 1, false);
    let signs = orient(alloc, &links)?;
    assert_eq!(&rt; signs.len(), 8);
    for sign in &signs {
        assert_eq!(&rt; sign.positive, sign.dart.number() % 2 == 1);
    }
    Ok(())
}

// The torus comes first and has signs. In the Klein bottle link 2 leads from dart 9 to dart 13.
#[test]
fn klein_bottle_has_an_odd_walk(rt: HostRuntime) -> Result<(), Fail> {
    let alloc = rt.alloc();
    let mut links = Links::<Alpha, 2>::new(alloc);
    sewn_square(&rt, alloc, &mut links, 1, false);
    sewn_square(&rt, alloc, &mut links, 9, true);
    match orient(alloc, &links) {
        Err(OrientFault::Odd(walk)) => {
            assert_eq!(&rt; walk.start.number(), 9);
            assert_eq!(&rt; walk.links.as_slice(), [0, 1, 0, 1, 2].as_slice());
        }
        _ => panic!(&rt; "no odd walk"),
    }
    Ok(())
}

// A side of the second triangle lies on itself.
#[test]
fn fold_is_told_by_its_dart(rt: HostRuntime) -> Result<(), Fail> {
    let alloc = rt.alloc();
    let mut links = Links::<Alpha, 2>::new(alloc);
    sewn_square(&rt, alloc, &mut links, 1, true);
    polygon(&rt, alloc, &mut links, 3);
    assert_eq!(&rt; orient(alloc, &links), Err(OrientFault::Boundary));
    sew(&rt, alloc, &mut links, 9, 14);
    sew(&rt, alloc, &mut links, 11, 12);
    let fault = OrientFault::Folded {
        dart: Dart::new(11).unwrap(),
        link: 2,
    };
    assert_eq!(&rt;
        format!(in alloc; "{fault}")?.as_str(),
        "link 2 of dart 11 leads where link 0 leads"
    );
    assert_eq!(&rt; orient(alloc, &links), Err(fault));
    Ok(())
}
