// The parts of an answer of the index.
use index_types::{Damage, Refusal};
use std::io;
use std::io::Write;
use text_lines::print;
use text_lines::print::{Four, Out};

// The number of a refusal.
pub(crate) fn number(refusal: Refusal) -> u32 {
    match refusal {
        Refusal::Unsound => 1,
        Refusal::ShortRoom => 8,
        Refusal::DeadKey => 10,
        Refusal::Full => 11,
    }
}

// The number of entries of a query, then their keys and payloads.
pub(crate) fn entries(out: &mut Out, room: &[u32], count: usize) -> io::Result<()> {
    write!(out, "{count}")?;
    print::pairs(out, print::front(room, count, 4))
}

// The room of a commit: for boxes that came and that went, and for those that moved where they were and where they are.
#[derive(Clone, Copy)]
pub(crate) struct Rooms {
    pub(crate) added: [f64; 2048],
    pub(crate) removed: [f64; 2048],
    pub(crate) old: [f64; 2048],
    pub(crate) new: [f64; 2048],
}

// A commit's answer: the boxes of each kind, and the union of them all.
pub(crate) fn damage(out: &mut Out, rooms: &Rooms, damage: Damage) -> io::Result<()> {
    let Damage {
        added,
        removed,
        moved,
    } = damage;
    write!(out, "added {added}")?;
    print::numbers(out, print::front(&rooms.added, added, 4))?;
    write!(out, " removed {removed}")?;
    print::numbers(out, print::front(&rooms.removed, removed, 4))?;
    write!(out, " moved {moved}")?;
    let before = rooms.old.chunks_exact(4);
    let after = rooms.new.chunks_exact(4);
    for (old, new) in before.zip(after).take(moved) {
        print::numbers(out, old)?;
        print::numbers(out, new)?;
    }
    write!(out, " union ")?;
    let Rooms {
        added,
        removed,
        old,
        new,
    } = rooms;
    match index_damage::union(damage, added, removed, old, new) {
        Ok(Some(b)) => write!(out, "{}", Four([b.min_x, b.min_y, b.max_x, b.max_y])),
        Ok(None) => write!(out, "none"),
        Err(_) => write!(out, "short"),
    }
}
