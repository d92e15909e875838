// The run-time test that an index is sound: linear, and exact in both directions.
#![tactic(auto)]

ghost use Rattle.std.specs.Prelude.{◌≡◌, get_or};
ghost use Rattle.counting.specs.Times.{every};
ghost use Rattle.index_types.specs.Slots.{entry};
ghost use Rattle.index_sound.specs.Sound as spec;

use counting::counted;
use index_types::Index;

// One slot: its mark, and how often it stands in the free list and in the queue.
fn slot_right(x: usize, used: usize, mark: u8, free: u8, queue: u8) -> bool
    ensures { result ≡ spec.slot_right x used mark free queue }
{
    let due = u8::from(x < used && mark == 0); // how often the slot is to stand in the free list
    (x < used || mark == 0) && (free == due && (mark < 2 || queue == 1))
}

// All 512 slots.
fn slots_right(index: &Index, free: &[u8; 512], queue: &[u8; 512]) -> bool
    ensures { result ≡ every 512 (λ x. spec.slot_right x index.now.used (entry index.now x).mark (get_or free.now x 0) (get_or queue.now x 0)) }
{
    (0..512).all(|x| slot_right(x, index.used, index.entries[x].mark, free[x], queue[x]))
}

// Whether the index is sound.
pub fn is_sound(index: &Index) -> bool
    ensures test { result ≡ spec.sound_index index.now }
    ensures lengths { spec.Shaped index.now }
{
    prove!(index.entries[..].len() == 512);
    prove!(index.free[..].len() == 512);
    prove!(index.dirty[..].len() == 512);
    let Some(free) = counted(&index.free, index.frees) else {
        return false;
    };
    let Some(queue) = counted(&index.dirty, index.queued) else {
        return false;
    };
    index.used <= 512 && slots_right(index, &free, &queue)
}
