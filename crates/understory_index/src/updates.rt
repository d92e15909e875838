// The index's calls that change an entry (understory_index's index.rs). Every call takes every index, key and box; a refused one leaves the index
// as it was.
ghost use Rattle.std.specs.Prelude.{◌≡◌};
ghost use Rattle.index_state.specs.Calls as spec;

use counting::check;
use index_types::{Aabb2D, Index, Key, Refusal};

// Gives an entry another box. A key that is marked removed and not yet committed is not dead: the entry lives again.
pub fn update(index: &mut Index, key: Key, aabb: Aabb2D) -> Result<(), Refusal>
    ensures answer { spec.answer_told result ≡ spec.told index.old (spec.update key aabb) }
    ensures index { index.new ≡ spec.after index.old (spec.update key aabb) }
{
    check(index_sound::is_sound(index), Refusal::Unsound)?;
    let Some(_entry) = index_entries::look_up(index, key) else {
        return Err(Refusal::DeadKey);
    };
    index_entries::update_entry(index, key.0, aabb);
    Ok(())
}

// Marks an entry removed; one that was only added goes at once, and its slot is freed.
pub fn remove(index: &mut Index, key: Key) -> Result<(), Refusal>
    ensures answer { spec.answer_told result ≡ spec.told index.old (spec.remove key) }
    ensures index { index.new ≡ spec.after index.old (spec.remove key) }
{
    check(index_sound::is_sound(index), Refusal::Unsound)?;
    let Some(_entry) = index_entries::look_up(index, key) else {
        return Err(Refusal::DeadKey);
    };
    index_entries::remove_entry(index, key.0);
    Ok(())
}
