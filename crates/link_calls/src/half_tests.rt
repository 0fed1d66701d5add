use crate::double_tests::{check, check_link, polygon};
use crate::orient_tests::{sew, sewn_square};
use link_rows::Links;
use map_kind::{Alpha, Beta};
use orient_half::{double, half, orient};
use std::test::Fail;

// The odd darts of the torus are the positive ones. In the half link 1 leads round the square, and link 2 to the side across.
#[test]
fn a_torus_is_halved(rt: HostRuntime) -> Result<(), Fail> {
    let alloc = rt.alloc();
    let mut links = Links::<Alpha, 2>::new(alloc);
    sewn_square(&rt, alloc, &mut links, 1, false);
    let signs = orient(alloc, &links)?;
    let halved = half(alloc, &links, &signs)?;
    check(&rt, &halved.origin, &[1, 3, 5, 7]);
    check_link(&rt, &halved.links, 0, &[4, 1, 2, 3]);
    check_link(&rt, &halved.links, 1, &[2, 3, 4, 1]);
    check_link(&rt, &halved.links, 2, &[3, 4, 1, 2]);
    Ok(())
}

// The torus again, as a combinatorial map of four darts: its double has signs, and the half of that is the torus.
#[test]
fn half_of_the_double_of_a_torus(rt: HostRuntime) -> Result<(), Fail> {
    let alloc = rt.alloc();
    let mut links = Links::<Beta, 2>::new(alloc);
    polygon(&rt, alloc, &mut links, 4);
    sew(&rt, alloc, &mut links, 1, 3);
    sew(&rt, alloc, &mut links, 2, 4);
    assert!(&rt; links.live_count() < 100);
    let doubled = double(alloc, &links)?;
    let signs = orient(alloc, &doubled.links)?;
    let halved = half(alloc, &doubled.links, &signs)?;
    check(&rt, &halved.origin, &[1, 3, 5, 7]);
    check_link(&rt, &halved.links, 0, &[4, 1, 2, 3]);
    check_link(&rt, &halved.links, 1, &[2, 3, 4, 1]);
    check_link(&rt, &halved.links, 2, &[3, 4, 1, 2]);
    Ok(())
}
