// The walks over the nodes and the entries of a sound tree: every live node; how many entries are removed, and how many nodes committed.
ghost use Rattle.std.specs.Prelude.{◌≡◌, ◌≤◌, true};
ghost use Rattle.index_sound.specs.Sound.{sound_index};
ghost use Rattle.tree_state.specs.Tree.{live_slots};
ghost use Rattle.tree_state.specs.Sound as spec;

use crate::live::Live;
use crate::nodes::node_right;
use tree_state::Tree;

// Inner: every live node is right.
pub(crate) fn nodes_right(live: &Live) -> bool
    ensures { result ≡ spec.every_of (spec.node_right live.now.tree.now) (live_slots live.now.tree.now) }
{
    let tree = live.tree;
    let slots = &tree.links.order[..tree.links.count];
    slots.iter().all(|slot| node_right(tree, *slot as usize))
}

// How many entries are marked removed: none that is not used.
fn count_removed(tree: &Tree) -> usize
    requires { sound_index tree.now.index ≡ true }
    ensures { (result ≤ 512) × (result ≡ spec.removed_entries tree.now) }
{
    tree_state::whole(tree);
    let used = &tree.index.entries[..tree.index.used];
    used.iter().filter(|entry| entry.mark >= 4).count()
}

// How many live nodes are committed.
fn count_committed(live: &Live) -> usize
    ensures { (result ≤ 256) × (result ≡ spec.committed_nodes live.now.tree.now) }
{
    let tree = live.tree;
    let slots = &tree.links.order[..tree.links.count];
    slots
        .iter()
        .filter(|slot| tree.keys[**slot as usize].committed)
        .count()
}

// Inner: no more rectangles are pending than entries removed, and these with the committed nodes are at most 256.
#[tactic(auto, unfolding(tree_state::specs::Sound::counts_right))]
pub(crate) fn counts_right(live: &Live) -> bool
    requires { sound_index live.now.tree.now.index ≡ true }
    ensures { result ≡ spec.counts_right live.now.tree.now }
{
    let tree = live.tree;
    let removed = count_removed(tree);
    let committed = count_committed(live);
    tree.pending.count <= removed && removed + committed <= 256
}
