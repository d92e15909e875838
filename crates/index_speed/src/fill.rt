// Phases from a fresh index: 512 inserts, and 512 inserts with their commit. What the answers add to a sum wraps; a refusal adds nothing, so a sum
// tells it.
use crate::work;
use index_types::{Index, NodeId};
use std::time::CpuClock;
use text_lines::report;
use understory_index::{commits, inserts};

// The room of a commit: for boxes that came and that went, and for those that moved where they were and where they are.
#[derive(Clone, Copy)]
pub(crate) struct Rooms {
    added: [f64; 2048],
    removed: [f64; 2048],
    old: [f64; 2048],
    new: [f64; 2048],
}

impl Rooms {
    pub(crate) fn new() -> Rooms {
        Rooms {
            added: [0.0; 2048],
            removed: [0.0; 2048],
            old: [0.0; 2048],
            new: [0.0; 2048],
        }
    }

    // Commits what waits, and adds the number of its boxes.
    pub(crate) fn commit(&mut self, index: &mut Index, sum: u64) -> u64 {
        let answer = commits::commit(
            index,
            &mut self.added,
            &mut self.removed,
            &mut self.old,
            &mut self.new,
        );
        match answer {
            Ok(damage) => sum
                .wrapping_add(damage.added as u64)
                .wrapping_add(damage.removed as u64)
                .wrapping_add(damage.moved as u64),
            Err(_) => sum,
        }
    }
}

// Inserts the first n entries, and adds the number of those that came in.
pub(crate) fn insert(index: &mut Index, n: u32, start: u64) -> u64 {
    let mut sum = start;
    for i in 0..n {
        if inserts::insert(index, work::place(i, 0.0), NodeId(i, 1)).is_ok() {
            sum = sum.wrapping_add(1);
        }
    }
    sum
}

// The first n entries, committed, and the sum of that.
pub(crate) fn committed(n: u32) -> (Index, u64) {
    let mut index = index_state::fresh();
    let sum = insert(&mut index, n, 0);
    let sum = Rooms::new().commit(&mut index, sum);
    (index, sum)
}

pub(crate) fn phases<R: CpuClock>(rt: &R, rounds: u32) {
    report::phase(rt, b"insert", 512, rounds, 0, |sum, _| {
        insert(&mut index_state::fresh(), 512, sum)
    });
    let mut rooms = Rooms::new();
    report::phase(rt, b"insert_commit", 512, rounds, 0, |sum, _| {
        let mut index = index_state::fresh();
        let inserted = insert(&mut index, 512, sum);
        rooms.commit(&mut index, inserted)
    });
}
