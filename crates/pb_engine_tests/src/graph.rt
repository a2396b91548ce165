//! Whether small graphs have a cycle.

use pb_search_graph::{Edge, has_cycle};
use std::alloc::Global;

/// Returns whether the numbers 0, 1 and 2 have a cycle by an edge from 0 to 1, one from 1 to 2 and one more.
fn goes_round(alloc: Global, from: u32, to: u32) -> Option<bool> {
    let edges = [
        Edge { from: 0, to: 1 },
        Edge { from: 1, to: 2 },
        Edge {
            from: from % 3,
            to: to % 3,
        },
    ];
    has_cycle(alloc, 3, &edges).ok()
}

#[test]
fn cycles_of_three_numbers(rt: HostRuntime) {
    assert!(rt; goes_round(rt.alloc(), 0, 2) == Some(false));
    assert!(rt; goes_round(rt.alloc(), 2, 0) == Some(true));
    assert!(rt; goes_round(rt.alloc(), 1, 1) == Some(true));
}
