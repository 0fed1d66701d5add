//! A mesh and a listing that end too early, wherever they end.
use crate::audits::TRIANGLE_LISTING;
use crate::harness::{audit, run_failing};
use crate::meshes::TRIANGLE;
use std::alloc::{AllocError, Global};

/// Numbers of bytes, what the program writes for a mesh that ends after so many, and its status.
struct Cut {
    first: usize,
    last: usize,
    text: &'static str,
    status: u8,
}

/// All places at which the triangle may end. The line feed at its end may be left out.
const CUTS: [Cut; 8] = [
    Cut {
        first: 0,
        last: 2,
        text: "off line 1 NoHeader\n",
        status: 3,
    },
    Cut {
        first: 3,
        last: 4,
        text: "off line 2 Short\n",
        status: 3,
    },
    Cut {
        first: 5,
        last: 8,
        text: "off line 2 BadCounts\n",
        status: 3,
    },
    Cut {
        first: 9,
        last: 14,
        text: "off line 3 Short\n",
        status: 3,
    },
    Cut {
        first: 15,
        last: 20,
        text: "off line 4 Short\n",
        status: 3,
    },
    Cut {
        first: 21,
        last: 26,
        text: "off line 5 Short\n",
        status: 3,
    },
    Cut {
        first: 27,
        last: 34,
        text: "off line 6 Short\n",
        status: 3,
    },
    Cut {
        first: 35,
        last: 36,
        text: "",
        status: 0,
    },
];

/// The first bytes of a text, so many of them.
fn front(alloc: Global, text: &str, count: usize) -> Result<Vec<u8>, AllocError> {
    let mut front = Vec::new(alloc);
    for byte in text.as_bytes().iter().take(count) {
        front.push(*byte)?;
    }
    Ok(front)
}

#[test]
fn a_mesh_that_ends_early(rt: HostRuntime) -> Result<(), AllocError> {
    for cut in &CUTS {
        for count in cut.first..=cut.last {
            let mesh = front(rt.alloc(), TRIANGLE, count)?;
            assert_eq!(rt; mesh.len(), count);
            let files = [("tri.off", mesh.as_slice()), ("s", b"".as_slice())];
            let words = ["run", "g", "2", "tri.off", "s"];
            let answer = run_failing(rt.alloc(), &words, &files, &[], &[])?;
            assert_eq!(rt; answer.text.as_slice(), cut.text.as_bytes(), "{count}");
            assert_eq!(rt; answer.status, cut.status, "{count}");
        }
    }
    Ok(())
}

/// A listing that ends early is at fault in the line that is not whole, or that is not there.
#[test]
fn a_listing_that_ends_early(rt: HostRuntime) -> Result<(), AllocError> {
    let alloc = rt.alloc();
    let mut line: u64 = 1;
    for count in 0..TRIANGLE_LISTING.len() {
        let listing = front(alloc, TRIANGLE_LISTING, count)?;
        if listing.as_slice().ends_with(b"\n") {
            line = line.saturating_add(1);
        }
        let text = format!(in alloc; "listing line {line} Form\n")?;
        let answer = audit(alloc, listing)?;
        assert_eq!(rt; answer.text.as_slice(), text.as_bytes(), "{count}");
        assert_eq!(rt; answer.status, 3, "{count}");
    }
    assert_eq!(rt; line, 8);
    Ok(())
}
