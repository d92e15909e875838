// The index's queries: flatvec.rs, visit_rect, with index.rs's look at the entry. The visits come as a list in lent room.
#![tactic(auto)]

ghost use Rattle.std.specs.Prelude.{◌≡◌, ◌+◌, ◌*◌, ◌<◌, ◌≤◌, length};
ghost use Rattle.index_types.specs.rooms.Stride.{store};
ghost use Rattle.index_types.specs.Slots.{entry};
ghost use Rattle.index_query.specs.Query as spec;

use index_types::{Aabb2D, Index};

// Inner: whether a slot is visited: it has a box in the backend that meets the rectangle, and an entry.
pub fn visited(index: &Index, slot: usize, rect: Aabb2D) -> bool
    requires { slot < 512 }
    ensures { result ≡ spec.visits index.now rect slot }
{
    let stored = index.backend.entries[slot];
    let has_box = stored.present != 0;
    let has_entry = index.entries[slot].mark != 0;
    has_box & (has_entry & stored.aabb.overlaps(rect))
}

// Puts a slot's entry behind the n that stand in the room: its slot, its generation and its payload.
fn put_entry(index: &Index, slot: usize, room: &mut [u32], n: usize)
    requires { (slot < 512) × (n < 512) × (4 * n + 4 ≤ length room.old) }
    ensures { room.new ≡ store 4 room.old n (spec.words slot (entry index.now slot)) }
{
    let entry = index.entries[slot];
    let at = 4 * n;
    room[at] = slot as u32;
    room[at + 1] = entry.generation;
    room[at + 2] = entry.payload.0;
    room[at + 3] = entry.payload.1;
}

// Inner: lists the entries that are visited, in rising slot order. How many they are is returned; the room is lent, as there is no heap.
pub fn visit_rect(index: &Index, rect: Aabb2D, room: &mut [u32]) -> usize
    requires { 2048 ≤ length room.old }
    ensures { let found = spec.slots 512 (spec.visits index.now rect) in
        (room.new ≡ spec.entries_in_front (spec.entries index.now found) room.old)
        × (result ≡ length found) }
{
    let mut n = 0;
    for slot in 0..512usize {
        if !visited(index, slot, rect) {
            continue;
        }
        put_entry(index, slot, room, n);
        n += 1;
    }
    n
}
