// Calls that change the tree. What the answers add to a sum wraps; a refusal adds nothing, so a sum tells it.
use crate::work;
use index_types::NodeId;
use std::time::CpuClock;
use text_lines::report::phase_of_calls;
use tree_state::{Refusal, Tree};

// Adds 1 where a call is done.
fn done(sum: u64, answer: Result<(), Refusal>) -> u64 {
    sum.wrapping_add(u64::from(answer.is_ok()))
}

// Adds the number of damage rectangles.
fn damage(sum: u64, answer: Result<usize, Refusal>) -> u64 {
    sum.wrapping_add(answer.unwrap_or(0) as u64)
}

// Inserts a node, and adds its slot and 1.
fn insert(tree: &mut Tree, i: u32, sum: u64) -> u64 {
    match tree_insert::insert(tree, work::parent(i), work::local(i)) {
        Ok(NodeId(slot, _)) => sum.wrapping_add(u64::from(slot)).wrapping_add(1),
        Err(_) => sum,
    }
}

// Inserts the first n nodes.
fn fill(tree: &mut Tree, n: u32, start: u64) -> u64 {
    let mut sum = start;
    for i in 0..n {
        sum = insert(tree, i, sum);
    }
    sum
}

pub(crate) fn committed(n: u32) -> Tree {
    let mut tree = tree_state::fresh();
    fill(&mut tree, n, 0);
    let _ = tree_commit::commit(&mut tree, &mut [0.0; 2048]);
    tree
}

// All n of them are one call here.
pub(crate) fn inserts<R: CpuClock>(rt: &R, n: u32, rounds: u32) {
    phase_of_calls(rt, b"inserts", n, rounds, |sum, _| {
        fill(&mut tree_state::fresh(), n, sum)
    });
}

// The last node gets other bounds.
fn set_leaf(tree: &mut Tree, last: u32, k: u32) -> Result<(), Refusal> {
    tree_setters::set_local_bounds(tree, NodeId(last, 1), work::bounds(k))
}

// The root is moved.
fn move_root(tree: &mut Tree, k: u32) -> Result<(), Refusal> {
    tree_setters::set_local_transform(tree, NodeId(0, 1), work::moved(k % 2, 0))
}

// The last node, of this generation, is removed, inserted again and committed.
fn swap(tree: &mut Tree, last: u32, generation: u32, room: &mut [f64], sum: u64) -> u64 {
    let _ = tree_remove::remove(tree, NodeId(last, generation));
    let sum = insert(tree, last, sum);
    damage(sum, tree_commit::commit(tree, room))
}

fn setters<R: CpuClock>(rt: &R, start: &Tree, n: u32, last: u32, calls: u32) {
    let mut tree = *start;
    phase_of_calls(
        rt,
        b"setter",
        n,
        calls,
        |sum, k| done(sum, set_leaf(&mut tree, last, k)),
    );
}

// The same, each with its commit.
fn leaves<R: CpuClock>(rt: &R, start: &Tree, n: u32, last: u32, calls: u32) {
    let mut tree = *start;
    let mut room = [0.0; 2048];
    phase_of_calls(rt, b"setter_commit", n, calls, |sum, k| {
        let _ = set_leaf(&mut tree, last, k);
        damage(sum, tree_commit::commit(&mut tree, &mut room))
    });
}

fn moves<R: CpuClock>(rt: &R, start: &Tree, n: u32, calls: u32) {
    let mut tree = *start;
    phase_of_calls(
        rt,
        b"root",
        n,
        calls,
        |sum, k| done(sum, move_root(&mut tree, k)),
    );
}

// The same, each with its commit, which reworks every node.
fn wholes<R: CpuClock>(rt: &R, start: &Tree, n: u32, calls: u32) {
    let mut tree = *start;
    let mut room = [0.0; 2048];
    phase_of_calls(rt, b"root_commit", n, calls, |sum, k| {
        let _ = move_root(&mut tree, k);
        damage(sum, tree_commit::commit(&mut tree, &mut room))
    });
}

fn swaps<R: CpuClock>(rt: &R, start: &Tree, n: u32, last: u32, calls: u32) {
    let mut tree = *start;
    let mut room = [0.0; 2048];
    let mut generation = 0u32;
    phase_of_calls(rt, b"remove_insert_commit", n, calls, |sum, _| {
        generation = generation.wrapping_add(1);
        swap(&mut tree, last, generation, &mut room, sum)
    });
}

// `last` is the last of n nodes.
pub(crate) fn phases<R: CpuClock>(rt: &R, n: u32, last: u32, calls: u32) {
    let start = committed(n);
    setters(rt, &start, n, last, calls);
    leaves(rt, &start, n, last, calls);
    moves(rt, &start, n, calls);
    wholes(rt, &start, n, calls);
    swaps(rt, &start, n, last, calls);
}
