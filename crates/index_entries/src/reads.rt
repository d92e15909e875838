// An entry of the index: its mark, its previous box, and what a key finds (understory_index's index.rs).
ghost use Rattle.std.specs.Prelude.{◌≡◌};
ghost use Rattle.index_entries.specs.reads.Reads as spec;

use index_types::{Aabb2D, Index, Key, Slot};

// A mark, or none.
#[derive(Clone, Copy, PartialEq, Eq)]
pub enum Mark {
    Unmarked,
    Added,
    Updated,
    Removed,
}

// The mark that a number stands for, for a slot that is not empty.
#[tactic(auto, unfolding(crate::specs::reads::Reads::mark_of))]
pub fn mark_of(n: u8) -> Mark
    ensures { result ≡ spec.mark_of n }
{
    match n {
        1 => Mark::Unmarked,
        2 => Mark::Added,
        3 => Mark::Updated,
        _ => Mark::Removed,
    }
}

// Inner: the previous box of an entry, if there is one: the one that it had without a mark, when it was updated.
#[tactic(auto, unfolding(crate::specs::reads::Reads::previous_box))]
pub fn previous_box(entry: Slot) -> Option<Aabb2D>
    ensures { result ≡ spec.previous_box entry }
{
    if entry.kept == 0 {
        return None;
    }
    Some(entry.prev)
}

// Inner: whether a key is live: its slot holds an entry, marked or not, at its generation.
pub fn is_live(index: &Index, key: Key) -> bool
    ensures { result ≡ spec.live index.now key }
{
    let x = key.0 as usize;
    x < 512 && index.entries[x].mark != 0 && index.entries[x].generation == key.1
}

// Inner: what a key finds: a live one its slot's entry.
#[tactic(auto, unfolding(crate::specs::reads::Reads::look_up))]
pub fn look_up(index: &Index, key: Key) -> Option<Slot>
    ensures { result ≡ spec.look_up index.now key }
{
    if !is_live(index, key) {
        return None;
    }
    Some(index.entries[key.0 as usize])
}
