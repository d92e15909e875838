// Requests and a reading: the tree stays.
use crate::{change, work};
use index_types::NodeId;
use std::time::CpuClock;
use text_lines::report::phase_of_calls;
use tree_state::{Refusal, Tree};
use tree_taps::Hit;
use tree_types::{NodeFlags, QueryFilter};

fn filter() -> QueryFilter {
    QueryFilter {
        required_flags: NodeFlags(3),
    }
}

// Adds 1 for a live node.
fn alive(tree: &Tree, slot: u32, sum: u64) -> u64 {
    let answer = tree_readings::is_alive(tree, NodeId(slot, 1));
    sum.wrapping_add(u64::from(answer.unwrap_or(false)))
}

// Adds the slot of the node that is hit, 1, and the length of its path.
fn tap(tree: &Tree, k: u32, room: &mut [u32], sum: u64) -> u64 {
    match tree_taps::hit_test_point(tree, work::point(k), filter(), room) {
        Ok(
            Some(
                Hit {
                    node: NodeId(slot, _),
                    depth,
                },
            ),
        ) => sum
            .wrapping_add(u64::from(slot))
            .wrapping_add(1)
            .wrapping_add(depth as u64),
        _ => sum,
    }
}

// Adds the number of nodes.
fn listed(answer: Result<usize, Refusal>, sum: u64) -> u64 {
    sum.wrapping_add(answer.unwrap_or(0) as u64)
}

// `last` is the last of n nodes, which are a power of two.
pub(crate) fn phases<R: CpuClock>(rt: &R, n: u32, last: u32, calls: u32) {
    let tree = change::committed(n);
    let mut room = [0; 512];
    phase_of_calls(
        rt,
        b"is_alive",
        n,
        calls,
        |sum, k| alive(&tree, k & last, sum),
    );
    phase_of_calls(rt, b"tap", n, calls, |sum, k| tap(&tree, k, &mut room, sum));
    phase_of_calls(rt, b"point", n, calls, |sum, k| {
        listed(
            tree_listings::containing_point(&tree, work::point(k), filter(), &mut room),
            sum,
        )
    });
    phase_of_calls(rt, b"rect", n, calls, |sum, k| {
        listed(
            tree_listings::intersect_rect(&tree, work::rect(k), filter(), &mut room),
            sum,
        )
    });
}
