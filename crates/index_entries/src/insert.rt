// A new entry of the index (understory_index's index.rs, insert).
ghost use Rattle.std.specs.Prelude.{◌≡◌};
ghost use Rattle.index_entries.specs.Entries as spec;

use crate::slots::{queue_dirty_slot, take_slot};
use index_types::{Aabb2D, Index, Key, NodeId, Slot};

// Inner: a new entry, marked added and queued, at the last freed slot, else at the next unused one.
pub fn insert_entry(index: &mut Index, aabb: Aabb2D, payload: NodeId) -> Key
    requires { spec.Inserts index.old }
    ensures key { result ≡ spec.key_of (spec.slot_of index.old) (spec.generation_of index.old) }
    ensures index { index.new ≡ spec.insert_of index.old aabb payload }
{
    let key = take_slot(index);
    let x = key.0 as usize;
    index.entries[x] = Slot {
        generation: key.1,
        mark: 2,
        payload,
        aabb,
        kept: 0,
        ..index.entries[x]
    };
    queue_dirty_slot(index, key.0);
    key
}
