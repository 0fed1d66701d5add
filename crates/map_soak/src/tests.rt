//! Soaks whose summaries are known.
use crate::soak;
use attr_rules::OrCopy;
use map_kind::{Alpha, Beta};
use std::alloc::AllocError;

#[test]
fn soaks_of_a_generalized_map(rt: HostRuntime) -> Result<(), AllocError> {
    let summary = soak::<Alpha, OrCopy>(rt.alloc(), &OrCopy, 1, 3)?;
    assert_eq!(rt; summary.lines, 12);
    assert_eq!(rt; summary.accepted, 12);
    assert_eq!(rt; summary.total, 1002);
    assert_eq!(rt; summary.counts.as_slice(), [17, 9, 9, 2, 2].as_slice());
    Ok(())
}

#[test]
fn soaks_of_a_combinatorial_map(rt: HostRuntime) -> Result<(), AllocError> {
    let summary = soak::<Beta, OrCopy>(rt.alloc(), &OrCopy, 1, 200)?;
    assert_eq!(rt; summary.lines, 800);
    assert_eq!(rt; summary.accepted, 800);
    assert_eq!(rt; summary.total, 101642);
    assert_eq!(rt;
        summary.counts.as_slice(),
        [936, 498, 697, 256, 57].as_slice()
    );
    Ok(())
}
