// The entries of the index (understory_index's index.rs): the calls and the box tree stand on these. Here an entry is updated; look-up, insert and
// remove are passed on.
#![tactic(auto)]

pub mod insert; // a new entry
pub mod reads; // an entry is read, and what a key finds
pub mod remove; // an entry is removed
pub mod slots; // generations, the queue, and the slot of an insert

ghost use Rattle.std.specs.Prelude.{◌≡◌};
ghost use Rattle.index_entries.specs.Entries as spec;

pub use crate::insert::insert_entry;
pub use crate::reads::{Mark, is_live, look_up, mark_of, previous_box};
pub use crate::remove::remove_entry;
use crate::slots::queue_dirty_slot;
use index_types::{Aabb2D, Index, Slot};

// Inner: gives a slot's entry another box. One without a mark keeps the box it had and is queued; an added one stays added; a removed one lives again.
pub fn update_entry(index: &mut Index, slot: u32, aabb: Aabb2D)
    requires { spec.Queues index.old slot }
    ensures { index.new ≡ spec.update_of index.old slot aabb }
{
    let x = slot as usize;
    let entry = index.entries[x];
    match mark_of(entry.mark) {
        Mark::Added => {
            index.entries[x] = Slot {
                mark: 2,
                aabb,
                ..entry
            };
        }
        Mark::Unmarked => {
            index.entries[x] = Slot {
                mark: 3,
                aabb,
                kept: 1,
                prev: entry.aabb,
                ..entry
            };
            queue_dirty_slot(index, slot);
        }
        Mark::Updated => {
            index.entries[x] = Slot {
                mark: 3,
                aabb,
                ..entry
            };
        }
        Mark::Removed => {
            index.entries[x] = Slot {
                mark: 3, // it lives again
                aabb,
                ..entry
            };
        }
    }
}
