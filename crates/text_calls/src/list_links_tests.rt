//! What the links of listings are, told by numbers.
ghost use Rattle.std.specs.Prelude.{◌≤◌, length};

use link_rows::Links;
use list_text::{LISTING_MAX, listing_links, read_listing};
use map_kind::{Alpha, Beta, Dart, Kind};
use std::alloc::Global;
use std::test::Fail;

/// The links of the map that a text tells, or nothing where it tells none of this kind and dimension.
fn links_told<K: Kind, const DIM: usize>(alloc: Global, text: &[u8]) -> Option<Links<K, DIM>>
    requires { length text.now ≤ LISTING_MAX }
{
    let Ok(listing) = read_listing(alloc, text) else {
        return None;
    };
    if listing.letter != K::letter() {
        return None;
    }
    if listing.dim as usize != DIM {
        return None;
    }
    listing_links(alloc, &listing).ok()
}

/// Only the darts 2 and 5 of six are live.
#[test]
fn darts_of_a_generalized_map_between_dead_ones(rt: HostRuntime) -> Result<(), Fail> {
    let text = b"cellmap 2 g 2 6 2
2: 5 0 0
5: 2 0 0
end
";
    let links = links_told::<Alpha, 2>(rt.alloc(), text.as_slice()).ok_or("no links")?;
    let two = Dart::new(2).ok_or("no dart")?;
    let five = Dart::new(5).ok_or("no dart")?;
    assert_eq!(rt; links.made(), 6);
    assert_eq!(rt; links.live_count(), 2);
    assert_eq!(rt; links.next_live(0), Some(two));
    assert_eq!(rt; links.next_live(2), Some(five));
    assert_eq!(rt; links.link(two, 0), Some(five));
    assert_eq!(rt; links.link(five, 0), Some(two));
    assert_eq!(rt; links.link(two, 1), None);
    assert_eq!(rt; links.link(five, 2), None);
    Ok(())
}

/// The dart with the number 2 has ended, and the darts 3 and 5 are sewn at link 2.
#[test]
fn darts_of_a_combinatorial_map_around_a_dead_one(rt: HostRuntime) -> Result<(), Fail> {
    let text = b"cellmap 2 c 2 5 4
1: 0 3 0
3: 1 0 5
4: 0 0 0
5: 0 0 3
end
";
    let links = links_told::<Beta, 2>(rt.alloc(), text.as_slice()).ok_or("no links")?;
    let one = Dart::new(1).ok_or("no dart")?;
    let three = Dart::new(3).ok_or("no dart")?;
    let four = Dart::new(4).ok_or("no dart")?;
    let five = Dart::new(5).ok_or("no dart")?;
    assert_eq!(rt; links.made(), 5);
    assert_eq!(rt; links.live_count(), 4);
    assert_eq!(rt; links.next_live(1), Some(three));
    assert_eq!(rt; links.link(one, 1), Some(three));
    assert_eq!(rt; links.link(one, 0), None);
    assert_eq!(rt; links.link(three, 0), Some(one));
    assert_eq!(rt; links.link(three, 2), Some(five));
    assert_eq!(rt; links.link(five, 2), Some(three));
    assert_eq!(rt; links.link(four, 2), None);
    Ok(())
}
