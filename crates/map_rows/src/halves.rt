//! Halves of listings: what the program writes for the bytes of a listing, and its status.
use crate::harness::half;
use std::alloc::AllocError;

/// A listing, what the program writes for its half, and the status.
struct Half {
    listing: &'static str,
    text: &'static str,
    status: u8,
}

const HALVES: [Half; 12] = [
    // a torus of one square, as a generalized map
    Half {
        listing: "cellmap 2 g 2 8 8\n1: 2 8 6\n2: 1 3 5\n3: 4 2 8\n4: 3 5 7\n5: 6 4 2\n6: 5 7 1\n7: 8 6 4\n8: 7 1 3\nend\n",
        text: "cellmap 2 c 2 4 4\n1: 4 2 3\n2: 1 3 4\n3: 2 4 1\n4: 3 1 2\nend\nfrom 1 3 5 7\n",
        status: 0,
    },
    // and as a combinatorial map
    Half {
        listing: "cellmap 2 c 2 4 4\n1: 4 2 3\n2: 1 3 4\n3: 2 4 1\n4: 3 1 2\nend\n",
        text: "cellmap 2 g 2 8 8\n1: 2 8 6\n2: 1 3 5\n3: 4 2 8\n4: 3 5 7\n5: 6 4 2\n6: 5 7 1\n7: 8 6 4\n8: 7 1 3\nend\nfrom 1 2 3 4\n",
        status: 0,
    },
    // two squares back to back, of which the positive darts of the second are the even ones
    Half {
        listing: "cellmap 2 g 2 16 16\n1: 2 8 9\n2: 1 3 10\n3: 4 2 11\n4: 3 5 12\n5: 6 4 13\n6: 5 7 14\n7: 8 6 15\n8: 7 1 16\n9: 10 16 1\n10: 9 11 2\n11: 12 10 3\n12: 11 13 4\n13: 14 12 5\n14: 13 15 6\n15: 16 14 7\n16: 15 9 8\nend\n",
        text: "cellmap 2 c 2 8 8\n1: 4 2 5\n2: 1 3 6\n3: 2 4 7\n4: 3 1 8\n5: 6 8 1\n6: 7 5 2\n7: 8 6 3\n8: 5 7 4\nend\nfrom 1 3 5 7 10 12 14 16\n",
        status: 0,
    },
    // darts that ended have no ranks, and values and marks are left out
    Half {
        listing: "cellmap 2 c 2 9 3\n2: 7 4 0\n4: 2 7 0\n7: 4 2 0\nrule 2 sum share\nval 2 2 5 0 0\nmark m\nend\n",
        text: "cellmap 2 g 2 6 6\n1: 2 6 0\n2: 1 3 0\n3: 4 2 0\n4: 3 5 0\n5: 6 4 0\n6: 5 1 0\nend\nfrom 2 4 7\n",
        status: 0,
    },
    // a dart without links
    Half {
        listing: "cellmap 2 c 3 1 1\n1: 0 0 0 0\nend\n",
        text: "cellmap 2 g 3 2 2\n1: 2 0 0 0\n2: 1 0 0 0\nend\nfrom 1\n",
        status: 0,
    },
    // a Klein bottle
    Half {
        listing: "cellmap 2 g 2 8 8\n1: 2 8 5\n2: 1 3 6\n3: 4 2 8\n4: 3 5 7\n5: 6 4 1\n6: 5 7 2\n7: 8 6 4\n8: 7 1 3\nend\n",
        text: "half odd 1\n",
        status: 3,
    },
    // the same in version 1
    Half {
        listing: "cellmap 1 g 2 8 8\n1: 2 8 5\n2: 1 3 6\n3: 4 2 8\n4: 3 5 7\n5: 6 4 1\n6: 5 7 2\n7: 8 6 4\n8: 7 1 3\nend\n",
        text: "half odd 1\n",
        status: 3,
    },
    // each side of a square sewn to itself
    Half {
        listing: "cellmap 2 g 2 8 8\n1: 2 8 2\n2: 1 3 1\n3: 4 2 4\n4: 3 5 3\n5: 6 4 6\n6: 5 7 5\n7: 8 6 8\n8: 7 1 7\nend\n",
        text: "half Folded 1 2\n",
        status: 3,
    },
    // a boundary is told before folds
    Half {
        listing: "cellmap 2 g 2 6 6\n1: 2 6 2\n2: 1 3 1\n3: 4 2 0\n4: 3 5 0\n5: 6 4 0\n6: 5 1 0\nend\n",
        text: "half Boundary\n",
        status: 3,
    },
    // no darts
    Half {
        listing: "cellmap 2 g 2 0 0\nend\n",
        text: "cellmap 2 c 2 0 0\nend\nfrom\n",
        status: 0,
    },
    Half {
        listing: "cellmap 2 g 2 3 0\nend\n",
        text: "cellmap 2 c 2 0 0\nend\nfrom\n",
        status: 0,
    },
    // a listing with a fault
    Half {
        listing: "cellmap 1 g 2 6 6\n1: 2 6 0\n2: 5 3 0\n3: 4 2 0\n4: 3 5 0\n5: 6 4 0\n6: 5 1 0\nend\n",
        text: "listing line 2 Laws\n",
        status: 3,
    },
];

#[test]
fn halves_of_listings(rt: HostRuntime) -> Result<(), AllocError> {
    for row in &HALVES {
        let listing = Vec::from_slice(rt.alloc(), row.listing.as_bytes())?;
        let answer = half(rt.alloc(), listing)?;
        assert_eq!(rt;
            answer.text.as_slice(),
            row.text.as_bytes(),
            "{}",
            row.listing
        );
        assert_eq!(rt; answer.status, row.status, "{}", row.listing);
    }
    Ok(())
}
