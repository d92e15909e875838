// An entry of the index removed (understory_index's index.rs, remove).
ghost use Rattle.std.specs.Prelude.{◌≡◌};
ghost use Rattle.index_entries.specs.Entries as spec;

use crate::reads::{Mark, mark_of};
use crate::slots::queue_dirty_slot;
use index_types::Index;

// Inner: marks a slot's entry removed; one that was only added goes at once, and its slot is freed.
pub fn remove_entry(index: &mut Index, slot: u32)
    requires { spec.Removes index.old slot }
    ensures { index.new ≡ spec.remove_of index.old slot }
{
    let x = slot as usize;
    match mark_of(index.entries[x].mark) {
        Mark::Added => {
            index.entries[x].mark = 0;
            index.free[index.frees] = slot;
            index.frees += 1;
        }
        Mark::Unmarked => {
            index.entries[x].mark = 4;
            queue_dirty_slot(index, slot);
        }
        Mark::Updated => {
            index.entries[x].mark = 4;
        }
        Mark::Removed => {
            index.entries[x].mark = 4;
        }
    }
}
