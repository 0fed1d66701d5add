//! Soaks: what the program writes for the words of a soak, and its status.
use crate::harness::soak;
use std::alloc::AllocError;

/// The words of a soak, what the program writes for them, and its status.
struct SoakRow {
    kind: &'static str,
    seed: &'static str,
    count: &'static str,
    text: &'static str,
    status: u8,
}

const SOAKS: [SoakRow; 8] = [
    SoakRow {
        kind: "g",
        seed: "1",
        count: "3",
        text: "soak 12 12 1002\ncount 17 9 9 2 2\n",
        status: 0,
    },
    SoakRow {
        kind: "g",
        seed: "2147483647",
        count: "50",
        text: "soak 200 200 24192\ncount 484 132 181 62 13\n",
        status: 0,
    },
    SoakRow {
        kind: "c",
        seed: "0",
        count: "120",
        text: "soak 480 480 58170\ncount 565 301 417 143 27\n",
        status: 0,
    },
    // numbers that are spelled otherwise, or are out of range
    SoakRow {
        kind: "g",
        seed: "01",
        count: "3",
        text: "usage\n",
        status: 2,
    },
    SoakRow {
        kind: "g",
        seed: "2147483648",
        count: "3",
        text: "usage\n",
        status: 2,
    },
    SoakRow {
        kind: "g",
        seed: "1",
        count: "0",
        text: "usage\n",
        status: 2,
    },
    SoakRow {
        kind: "g",
        seed: "1",
        count: "100001",
        text: "usage\n",
        status: 2,
    },
    SoakRow {
        kind: "x",
        seed: "1",
        count: "1",
        text: "usage\n",
        status: 2,
    },
];

#[test]
fn soaks_from_numbers(rt: HostRuntime) -> Result<(), AllocError> {
    for row in &SOAKS {
        let answer = soak(rt.alloc(), row.kind, row.seed, row.count)?;
        assert_eq!(rt; answer.text.as_slice(), row.text.as_bytes());
        assert_eq!(rt; answer.status, row.status);
    }
    Ok(())
}
