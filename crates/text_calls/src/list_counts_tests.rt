//! What the counts of listings are, told by numbers.
ghost use Rattle.std.specs.Prelude.{◌≤◌, length};

use list_text::{LISTING_MAX, listing_counts, read_listing};
use std::alloc::Global;
use std::test::Fail;

/// The counts of the map that a text tells, or nothing where it tells none.
fn counts_of(alloc: Global, text: &[u8]) -> Option<Vec<u64>>
    requires { length text.now ≤ LISTING_MAX }
{
    match read_listing(alloc, text) {
        Ok(listing) => listing_counts(alloc, &listing).ok(),
        Err(_) => None,
    }
}

#[test]
fn a_triangle_of_a_generalized_map(rt: HostRuntime) -> Result<(), Fail> {
    let text = b"cellmap 2 g 2 6 6
1: 2 6 0
2: 1 3 0
3: 4 2 0
4: 3 5 0
5: 6 4 0
6: 5 1 0
end
";
    let counts = counts_of(rt.alloc(), text.as_slice()).ok_or("no counts")?;
    assert_eq!(rt; counts.as_slice(), [6, 3, 3, 1, 1].as_slice());
    Ok(())
}

/// The dart with the number 2 has ended, and the darts 3 and 5 are sewn at link 2.
#[test]
fn darts_of_a_combinatorial_map_around_one_that_ended(rt: HostRuntime) -> Result<(), Fail> {
    let text = b"cellmap 2 c 2 5 4
1: 0 3 0
3: 1 0 5
4: 0 0 0
5: 0 0 3
end
";
    let counts = counts_of(rt.alloc(), text.as_slice()).ok_or("no counts")?;
    assert_eq!(rt; counts.as_slice(), [4, 4, 3, 3, 2].as_slice());
    Ok(())
}
