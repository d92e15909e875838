// The index's commit: understory_index's index.rs, commit and commit_slot.
#![tactic(auto)]

ghost use Rattle.std.specs.Prelude.{◌≡◌, ◌+◌, ◌*◌, ◌<◌, ◌≤◌, ℕ, length};
ghost use Rattle.index_sound.specs.Sound.{SoundOf, Shaped};
ghost use Rattle.index_commit.specs.Commit as spec;

use index_entries::{Mark, mark_of, previous_box};
use index_types::{Aabb2D, Damage, Index, Slot, Stored, rooms};

// What one slot adds to the damage. A move has its old box and its new one.
#[derive(Clone, Copy, Default)]
pub struct Change {
    pub added: Option<Aabb2D>,
    pub removed: Option<Aabb2D>,
    pub old: Option<Aabb2D>,
    pub new: Option<Aabb2D>,
}

// The box that a removal shows: the previous one where there is one, else the entry's own.
#[tactic(auto, unfolding(crate::specs::Commit::box_before))]
fn box_before(p: Option<Aabb2D>, b: Aabb2D) -> Aabb2D
    ensures { result ≡ spec.box_before p b }
{
    p.unwrap_or(b)
}

// Where an entry moved from, if its box changed as numbers.
#[tactic(auto, unfolding(crate::specs::Commit::moved_from, index_types::specs::Boxes::aabb_eq))]
fn moved_from(p: Option<Aabb2D>, b: Aabb2D) -> Option<Aabb2D>
    ensures { result ≡ spec.moved_from p b }
{
    let a = p?;
    if a == b {
        return None;
    }
    Some(a)
}

// Where it moved to then.
#[tactic(auto, unfolding(crate::specs::Commit::moved_to))]
fn moved_to(p: Option<Aabb2D>, b: Aabb2D) -> Option<Aabb2D>
    ensures { result ≡ spec.moved_to p b }
{
    p.map(|_| b)
}

// Inner: commits one slot. An empty or unmarked one does nothing.
#[tactic(auto, using(crate::proofs::Acts::acts))]
pub fn commit_slot(index: &mut Index, slot: u32) -> Change
    requires { spec.Commits index.old slot }
    ensures index { index.new ≡ spec.slot_committed index.old slot }
    ensures change { result ≡ spec.slot_change index.old slot }
{
    let x = slot as usize;
    let entry = index.entries[x];
    if entry.mark == 0 {
        return Change::default();
    }
    match mark_of(entry.mark) {
        Mark::Unmarked => Change::default(),
        Mark::Added => {
            index.entries[x].mark = 1;
            index.backend.entries[x] = Stored {
                present: 1,
                aabb: entry.aabb,
            };
            Change {
                added: Some(entry.aabb),
                ..Change::default()
            }
        }
        Mark::Updated => {
            index.entries[x] = Slot {
                mark: 1,
                kept: 0,
                ..entry
            };
            index.backend.entries[x] = Stored {
                present: 1,
                aabb: entry.aabb,
            };
            let from = moved_from(previous_box(entry), entry.aabb);
            Change {
                old: from,
                new: moved_to(from, entry.aabb),
                ..Change::default()
            }
        }
        Mark::Removed => {
            index.entries[x].mark = 0;
            index.backend.entries[x].present = 0;
            index.free[index.frees] = slot;
            index.frees += 1;
            Change {
                removed: Some(box_before(previous_box(entry), entry.aabb)),
                ..Change::default()
            }
        }
    }
}

// Puts a box, if there is one, behind the n that stand in the room. How many stand there then is returned.
fn push(room: &mut [f64], n: usize, p: Option<Aabb2D>) -> usize
    requires { (n < 512) × (4 * n + 4 ≤ length room.old) }
    ensures { (room.new ≡ spec.room_with room.old n p) × (result ≡ spec.count_with n p) }
{
    match p {
        Some(b) => {
            rooms::put_box_in(room, n, b);
            n + 1
        }
        None => n,
    }
}

// Inner: commits every queued slot in order, and empties the queue. The four rooms are no struct, since the contract speaks of each alone.
pub fn commit_slots(
    index: &mut Index,
    added: &mut [f64],
    removed: &mut [f64],
    old: &mut [f64],
    new: &mut [f64],
) -> Damage
    requires shape { Shaped index.old }
    requires sound { let ix = index.old in
        (u : ℕ) × SoundOf ix.entries ix.free ix.frees ix.dirty ix.queued u }
    requires rooms { (2048 ≤ length added.old) × (2048 ≤ length removed.old)
        × (2048 ≤ length old.old) × (2048 ≤ length new.old) }
    ensures index { index.new ≡ spec.commit_of index.old (spec.work_of index.old) }
    ensures damage { spec.Counts (spec.work_of index.old) result }
    ensures rooms { spec.Lays (spec.work_of index.old) added.old removed.old old.old new.old
        added.new removed.new old.new new.new }
{
    let mut damage = Damage {
        added: 0,
        removed: 0,
        moved: 0,
    };
    let queued = index.queued;
    for i in 0..queued {
        let slot = index.dirty[i];
        let change = commit_slot(index, slot);
        damage.added = push(added, damage.added, change.added);
        damage.removed = push(removed, damage.removed, change.removed);
        push(old, damage.moved, change.old);
        damage.moved = push(new, damage.moved, change.new);
    }
    index.queued = 0;
    damage
}
