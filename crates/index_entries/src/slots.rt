// The slots of the index: generations, the queue of dirty slots, and the slot that an insert takes (understory_index's index.rs).
ghost use Rattle.std.specs.Prelude.{◌≡◌, ◌≤◌};
ghost use Rattle.index_entries.specs.Entries as spec;

use index_types::{Index, Key};

// The generation of a slot that is used again: one higher, past 4,294,967,295 to 1, never 0.
#[tactic(auto, unfolding(crate::specs::slots::Slots::next_generation))]
fn next_generation(generation: u32) -> u32
    ensures { result ≡ spec.next_generation generation }
{
    let next = generation.wrapping_add(1);
    if next == 0 { 1 } else { next }
}

// Whether a slot stands in the queue.
fn is_queued(index: &Index, slot: u32) -> bool
    requires { index.now.queued ≤ 512 }
    ensures { result ≡ spec.stands slot index.now.dirty index.now.queued }
{
    index.dirty[..index.queued].contains(&slot)
}

// Inner: the slot is put last in the queue, unless it stands there already.
#[tactic(auto, unfolding(crate::specs::slots::Slots::queue_with, crate::specs::slots::Slots::length_with))]
pub(crate) fn queue_dirty_slot(index: &mut Index, slot: u32)
    requires { spec.Queues index.old slot }
    ensures { index.new ≡ spec.queued_of index.old slot }
{
    if !is_queued(index, slot) {
        index.dirty[index.queued] = slot;
        index.queued += 1;
    }
}

// Inner: takes the last freed slot, its generation one on; else the next unused slot, generation 1.
pub(crate) fn take_slot(index: &mut Index) -> Key
    requires { spec.Takes index.old }
    ensures key { result ≡ spec.key_of (spec.slot_of index.old) (spec.generation_of index.old) }
    ensures index { index.new ≡ spec.taken_of index.old }
{
    if index.frees == 0 {
        let slot = index.used;
        index.used = slot + 1;
        return Key(slot as u32, 1);
    }
    let last = index.frees - 1;
    let slot = index.free[last];
    let generation = next_generation(index.entries[slot as usize].generation);
    index.frees = last;
    Key(slot, generation)
}
