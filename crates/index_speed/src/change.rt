// Phases over 512 entries that are committed: updates of entries that wait for a commit, an update with its commit, and 512 updates with
// theirs. A phase of the port's own commits copies of an index in which the same 512 inserts wait.
use crate::fill::{Rooms, committed, insert};
use crate::work;
use index_types::{Index, Key};
use std::time::CpuClock;
use text_lines::report;
use understory_index::updates;

// Updates the first 512 entries, and adds the number of those that are.
fn update(index: &mut Index, shift: f64, start: u64) -> u64 {
    let mut sum = start;
    for i in 0..512 {
        if updates::update(index, Key(i, 1), work::place(i, shift)).is_ok() {
            sum = sum.wrapping_add(1);
        }
    }
    sum
}

// Updates and commits each of the first 512 entries.
fn single(index: &mut Index, shift: f64, rooms: &mut Rooms, start: u64) -> u64 {
    let mut sum = start;
    for i in 0..512 {
        let _ = updates::update(index, Key(i, 1), work::place(i, shift));
        sum = rooms.commit(index, sum);
    }
    sum
}

// 64 commits of what waits.
fn again(waiting: &Index, rooms: &mut Rooms, start: u64) -> u64 {
    let mut sum = start;
    for _ in 0..64 {
        let mut index = *waiting;
        sum = rooms.commit(&mut index, sum);
    }
    sum
}

fn update_phase<R: CpuClock>(rt: &R, rounds: u32) {
    let (mut index, start) = committed(512);
    report::phase(rt, b"update", 512, rounds, start, |sum, left| {
        update(&mut index, work::shift(left), sum)
    });
}

fn single_phase<R: CpuClock>(rt: &R, rounds: u32) {
    let mut rooms = Rooms::new();
    let (mut index, start) = committed(512);
    report::phase(rt, b"update_commit_1", 512, rounds, start, |sum, left| {
        single(&mut index, work::shift(left), &mut rooms, sum)
    });
}

fn batch_phase<R: CpuClock>(rt: &R, rounds: u32) {
    let mut rooms = Rooms::new();
    let (mut index, start) = committed(512);
    report::phase(rt, b"update_commit_512", 512, rounds, start, |sum, left| {
        let updated = update(&mut index, work::shift(left), sum);
        rooms.commit(&mut index, updated)
    });
}

pub(crate) fn own_phase<R: CpuClock>(rt: &R, rounds: u32) {
    let mut rooms = Rooms::new();
    let mut waiting = index_state::fresh();
    insert(&mut waiting, 512, 0);
    report::phase(rt, b"own_commit_512", 64, rounds, 0, |sum, _| {
        again(&waiting, &mut rooms, sum)
    });
}

pub(crate) fn phases<R: CpuClock>(rt: &R, rounds: u32) {
    update_phase(rt, rounds);
    single_phase(rt, rounds);
    batch_phase(rt, rounds);
}
