// The index's entries of a sound tree: each is empty, removed, or owned by the live committed node whose id it carries.
ghost use Rattle.std.specs.Prelude.{◌≡◌, ◌<◌, true};
ghost use Rattle.counting.specs.Times.{every};
ghost use Rattle.index_sound.specs.Sound.{sound_index};
ghost use Rattle.tree_state.specs.Sound as spec;

use crate::live::Live;

// The entry carries the id of a live committed node, whose key is the entry's.
fn owned_right(live: &Live, entry: usize) -> bool
    requires { entry < 512 }
    ensures { result ≡ spec.owned_right live.now.tree.now entry }
{
    let tree = live.tree;
    let owner = tree.index.entries[entry].payload.0 as usize;
    owner < 256
        && live.counts[owner] > 0
        && tree.keys[owner].committed
        && tree.keys[owner].key.0 as usize == entry
}

#[tactic(auto, unfolding(tree_state::specs::Sound::entry_right))]
fn entry_right(live: &Live, entry: usize) -> bool
    requires { entry < 512 }
    ensures { result ≡ spec.entry_right live.now.tree.now entry }
{
    let mark = live.tree.index.entries[entry].mark;
    mark == 0 || mark >= 4 || (mark == 1 && owned_right(live, entry))
}

// Inner: every used entry is right.
pub(crate) fn entries_right(live: &Live) -> bool
    requires { sound_index live.now.tree.now.index ≡ true }
    ensures { result ≡ every 512 (spec.entry_right live.now.tree.now) }
{
    let tree = live.tree;
    tree_state::whole(tree);
    (0..tree.index.used).all(|entry| entry_right(live, entry))
}
