//! Audits of listings: what the program writes for the bytes of a listing, and its status.
use crate::harness::audit;
use std::alloc::AllocError;

/// A listing, what the program writes for it, and its status.
struct Audit {
    listing: &'static str,
    text: &'static str,
    status: u8,
}

/// A triangle, in version 1.
pub const TRIANGLE_LISTING: &str =
    "cellmap 1 g 2 6 6\n1: 2 6 0\n2: 1 3 0\n3: 4 2 0\n4: 3 5 0\n5: 6 4 0\n6: 5 1 0\nend\n";

const AUDITS: [Audit; 18] = [
    Audit {
        listing: TRIANGLE_LISTING,
        text: "cellmap 2 g 2 6 6\n1: 2 6 0\n2: 1 3 0\n3: 4 2 0\n4: 3 5 0\n5: 6 4 0\n6: 5 1 0\nend\ncount 6 3 3 1 1\n",
        status: 0,
    },
    // with a value, whose dimension gets its rule
    Audit {
        listing: "cellmap 1 g 2 6 6\n1: 2 6 0\n2: 1 3 0\n3: 4 2 0\n4: 3 5 0\n5: 6 4 0\n6: 5 1 0\nval 0 1 1 1 1\nend\n",
        text: "cellmap 2 g 2 6 6\n1: 2 6 0\n2: 1 3 0\n3: 4 2 0\n4: 3 5 0\n5: 6 4 0\n6: 5 1 0\nrule 0 first copy\nval 0 1 1 1 1\nend\ncount 6 3 3 1 1\n",
        status: 0,
    },
    // in version 2 a value needs a rule of its own
    Audit {
        listing: "cellmap 2 g 2 6 6\n1: 2 6 0\n2: 1 3 0\n3: 4 2 0\n4: 3 5 0\n5: 6 4 0\n6: 5 1 0\nval 0 1 1 1 1\nend\n",
        text: "listing line 8 Values\n",
        status: 3,
    },
    // and rules stand before values
    Audit {
        listing: "cellmap 2 g 2 6 6\n1: 2 6 0\n2: 1 3 0\n3: 4 2 0\n4: 3 5 0\n5: 6 4 0\n6: 5 1 0\nval 0 1 1 1 1\nrule 0 sum share\nend\n",
        text: "listing line 9 Form\n",
        status: 3,
    },
    // a link that does not lead back
    Audit {
        listing: "cellmap 1 g 2 6 6\n1: 2 6 0\n2: 5 3 0\n3: 4 2 0\n4: 3 5 0\n5: 6 4 0\n6: 5 1 0\nend\n",
        text: "listing line 2 Laws\n",
        status: 3,
    },
    // no last line
    Audit {
        listing: "cellmap 1 g 2 6 6\n1: 2 6 0\n2: 1 3 0\n3: 4 2 0\n4: 3 5 0\n5: 6 4 0\n6: 5 1 0\n",
        text: "listing line 8 Form\n",
        status: 3,
    },
    // a value at a dart that is not the least of its cell
    Audit {
        listing: "cellmap 1 g 2 6 6\n1: 2 6 0\n2: 1 3 0\n3: 4 2 0\n4: 3 5 0\n5: 6 4 0\n6: 5 1 0\nval 0 6 1 1 1\nend\n",
        text: "listing line 8 Values\n",
        status: 3,
    },
    // rows in the wrong order
    Audit {
        listing: "cellmap 1 g 2 6 6\n2: 1 3 0\n1: 2 6 0\n3: 4 2 0\n4: 3 5 0\n5: 6 4 0\n6: 5 1 0\nend\n",
        text: "listing line 3 Order\n",
        status: 3,
    },
    // more rows than there are
    Audit {
        listing: "cellmap 2 g 2 4194304 4194304\nend\n",
        text: "listing line 2 Form\n",
        status: 3,
    },
    Audit {
        listing: "cellmap 1 g 2 4194304 4194304\nend\n",
        text: "listing line 2 Form\n",
        status: 3,
    },
    // more darts than may be made
    Audit {
        listing: "cellmap 1 g 2 4194305 0\nend\n",
        text: "listing line 1 Form\n",
        status: 3,
    },
    // a map of two sides with a rule, a value and a mark
    Audit {
        listing: "cellmap 2 c 2 9 2\n4: 9 9 0\n9: 4 4 0\nrule 1 max copy\nval 1 4 -1 0 1\nmark a\nend\n",
        text: "cellmap 2 c 2 9 2\n4: 9 9 0\n9: 4 4 0\nrule 1 max copy\nval 1 4 -1 0 1\nmark a\nend\ncount 2 2 2 1 1\n",
        status: 0,
    },
    // names that are in no table are those of named rules
    Audit {
        listing: "cellmap 2 g 2 1 1\n1: 0 0 0\nrule 0 copy first\nrule 1 sum xor2\nrule 2 host host\nend\n",
        text: "cellmap 2 g 2 1 1\n1: 0 0 0\nrule 0 copy first\nrule 1 sum xor2\nrule 2 host host\nend\ncount 1 1 1 1 1\n",
        status: 0,
    },
    // what is no name is none
    Audit {
        listing: "cellmap 2 g 2 1 1\n1: 0 0 0\nrule 0 Sum share\nend\n",
        text: "listing line 3 Form\n",
        status: 3,
    },
    // a mark twice
    Audit {
        listing: "cellmap 2 c 2 0 0\nmark a\nmark a\nend\n",
        text: "listing line 3 Order\n",
        status: 3,
    },
    // no line feed at the end
    Audit {
        listing: "cellmap 2 c 2 0 0\nend",
        text: "listing line 2 Form\n",
        status: 3,
    },
    // a line behind the last
    Audit {
        listing: "cellmap 2 c 2 0 0\nend\n\n",
        text: "listing line 3 Form\n",
        status: 3,
    },
    // nothing
    Audit {
        listing: "",
        text: "listing line 1 Form\n",
        status: 3,
    },
];

#[test]
fn audits_of_listings(rt: HostRuntime) -> Result<(), AllocError> {
    for row in &AUDITS {
        let listing = Vec::from_slice(rt.alloc(), row.listing.as_bytes())?;
        let answer = audit(rt.alloc(), listing)?;
        assert_eq!(rt;
            answer.text.as_slice(),
            row.text.as_bytes(),
            "{}",
            row.listing
        );
        assert_eq!(rt; answer.status, row.status, "{}", row.listing);
    }
    Ok(())
}
