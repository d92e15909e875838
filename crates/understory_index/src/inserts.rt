// The index's calls that insert and clear (understory_index's index.rs). Every call takes every index and box; a refused one leaves the index as
// it was.
ghost use Rattle.std.specs.Prelude.{◌≡◌};
ghost use Rattle.index_state.specs.Calls as spec;

use counting::check;
use index_types::{Aabb2D, Index, Key, NodeId, Refusal};

pub fn insert(index: &mut Index, aabb: Aabb2D, payload: NodeId) -> Result<Key, Refusal>
    ensures answer { spec.inserted_told result ≡ spec.told index.old (spec.insert aabb payload) }
    ensures index { index.new ≡ spec.after index.old (spec.insert aabb payload) }
{
    check(index_sound::is_sound(index), Refusal::Unsound)?;
    let full = index.frees == 0 && index.used >= 512;
    check(!full, Refusal::Full)?;
    let key = index_entries::insert_entry(index, aabb, payload);
    Ok(key)
}

// Empties the index, generations included, without damage.
pub fn clear(index: &mut Index) -> Result<(), Refusal>
    ensures answer { spec.answer_told result ≡ spec.told index.old spec.clear }
    ensures index { index.new ≡ spec.after index.old spec.clear }
{
    let sound = index_sound::is_sound(index); // whatever it holds
    check(sound, Refusal::Unsound)?;
    *index = index_state::fresh();
    Ok(())
}
