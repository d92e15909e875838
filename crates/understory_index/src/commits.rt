// The index's commit (understory_index's index.rs). It takes every index and room; a refused call leaves the index and the rooms as they were.
ghost use Rattle.std.specs.Prelude.{◌≡◌, length};
ghost use Rattle.index_state.specs.Calls as spec;

use counting::check;
use index_types::{Damage, Index, Refusal};

// Whether room is too short for 512 boxes of each kind.
fn short(added: &[f64], removed: &[f64], old: &[f64], new: &[f64]) -> bool
    ensures { result ≡ spec.short (length added.now) (length removed.now)
        (length old.now) (length new.now) }
{
    (added.len() < 2048) | (removed.len() < 2048) | ((old.len() < 2048) | (new.len() < 2048))
}

// Applies what is queued and lays the damage into the rooms. These are no struct, since the contract speaks of each alone.
pub fn commit(
    index: &mut Index,
    added: &mut [f64],
    removed: &mut [f64],
    old: &mut [f64],
    new: &mut [f64],
) -> Result<Damage, Refusal>
    ensures answer { spec.committed_told result ≡ spec.told index.old (spec.commit (length added.old)
        (length removed.old) (length old.old) (length new.old)) }
    ensures index { index.new ≡ spec.after index.old (spec.commit (length added.old)
        (length removed.old) (length old.old) (length new.old)) }
    ensures rooms { spec.CommitRooms index.old added.old removed.old old.old new.old
        added.new removed.new old.new new.new }
{
    check(index_sound::is_sound(index), Refusal::Unsound)?;
    let is_short = short(added, removed, old, new);
    check(!is_short, Refusal::ShortRoom)?;
    Ok(index_commit::commit_slots(index, added, removed, old, new))
}
