ghost use Rattle.std.specs.Prelude.{◌≤◌};
ghost use Rattle.map_defs.specs.Kind.{beta};
ghost use Rattle.map_defs.specs.Rows.{links_of};
ghost use Rattle.map_defs.specs.Laws.{Laws};

use link_rows::{Links, polygon_edit};
use map_kind::{Beta, Dart, Kind};
use orient_half::double;
use std::alloc::Global;
use std::process::Abort;
use std::test::Fail;

/// Makes a polygon of so many sides, whose links from 2 upwards are free.
pub(crate) fn polygon<const DIM: usize>(
    rt: &impl Abort,
    alloc: Global,
    links: &mut Links<Beta, DIM>,
    sides: u32,
)
    requires low { 3 ≤ sides }
    requires high { sides ≤ 9 }
    requires laws { Laws beta (links_of links.old.rows) }
    ensures { Laws beta (links_of links.new.rows) }
{
    match links.reserve(sides) {
        Ok(()) => {}
        Err(_) => panic!(rt; "no room"),
    }
    match polygon_edit(alloc, links, sides) {
        Ok(edit) => links.apply(&edit),
        Err(_) => panic!(rt; "no memory"),
    }
}

/// Compares the numbers of darts.
pub(crate) fn check(rt: &impl Abort, darts: &[Dart], wanted: &[u32]) {
    assert_eq!(rt; darts.len(), wanted.len());
    for (dart, number) in darts.iter().zip(wanted) {
        assert_eq!(rt; dart.number(), *number);
    }
}

/// Compares what stands at a link of the darts 1, 2 and so on.
pub(crate) fn check_link<K: Kind, const DIM: usize>(
    rt: &impl Abort,
    links: &Links<K, DIM>,
    link: usize,
    wanted: &[u32],
) {
    assert!(rt; link <= links.dimension());
    assert_eq!(rt; links.made() as usize, wanted.len());
    for (place, number) in wanted.iter().enumerate() {
        assert!(rt; place < 100);
        let dart = Dart::new(place as u32 + 1).unwrap();
        assert_eq!(rt; links.number_at(dart, link), *number);
    }
}

#[test]
fn no_darts_are_doubled(rt: HostRuntime) -> Result<(), Fail> {
    let alloc = rt.alloc();
    let links = Links::<Beta, 3>::new(alloc);
    assert!(&rt; links.live_count() < 100);
    let doubled = double(alloc, &links)?;
    assert_eq!(&rt; (doubled.links.made(), doubled.origin.len()), (0, 0));
    Ok(())
}

// Link 0 joins the two darts of a rank. Link 1 leads from the even dart of a side to the odd dart of the next side, and link
// 2 is free, as it was.
#[test]
fn a_triangle_is_doubled(rt: HostRuntime) -> Result<(), Fail> {
    let alloc = rt.alloc();
    let mut links = Links::<Beta, 2>::new(alloc);
    polygon(&rt, alloc, &mut links, 3);
    assert!(&rt; links.live_count() < 100);
    let doubled = double(alloc, &links)?;
    check(&rt, &doubled.origin, &[1, 2, 3]);
    check_link(&rt, &doubled.links, 0, &[2, 1, 4, 3, 6, 5]);
    check_link(&rt, &doubled.links, 1, &[6, 3, 2, 5, 4, 1]);
    check_link(&rt, &doubled.links, 2, &[0, 0, 0, 0, 0, 0]);
    Ok(())
}
