//! How much of each resource claims need. (That the lines of `plan` are written rightly, the examples show.)

use pb_base::{Capital, Claims};
use pb_plan::{bottleneck, free_capital, least_capital};
use std::alloc::Global;

/// Returns the least and the free capital of the first resource, which two processes claim.
fn needs(alloc: Global) -> Option<(u64, u128)> {
    let claims = Claims::new(alloc, &[&[2, 1], &[3, 1]]).ok()?;
    if claims.resources() == 0 {
        return None;
    }
    Some((least_capital(&claims, 0), free_capital(&claims, 0)))
}

/// Returns the bottleneck if the capital is `tapes` tapes and `disks` disks.
fn found(alloc: Global, tapes: u16, disks: u16) -> Option<Option<usize>> {
    let claims = Claims::new(alloc, &[&[2, 1], &[3, 1]]).ok()?;
    let capital = Capital::new(alloc, &[u32::from(tapes), u32::from(disks)]).ok()?;
    if claims.resources() != capital.resources() {
        return None;
    }
    Some(bottleneck(&claims, &capital))
}

#[test]
fn greatest_claims_and_sums(rt: HostRuntime) {
    assert!(rt; needs(rt.alloc()) == Some((3, 5)));
}

#[test]
fn bottlenecks(rt: HostRuntime) {
    for (tapes, disks, wanted) in &[
        (5, 2, None),
        (4, 2, Some(0)),
        (5, 1, Some(1)),
        (4, 1, Some(0)),
        (4, 0, Some(1)),
    ] {
        assert!(rt; found(rt.alloc(), *tapes, *disks) == Some(*wanted));
    }
}
