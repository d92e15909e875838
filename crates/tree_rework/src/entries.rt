// The entry of a node in the index (tree.rs: update_world_subtree).
ghost use Rattle.std.specs.Prelude.{◌≡◌, ◌<◌};
ghost use Rattle.tree_rework.specs.entries.Enter as spec;

use index_types::{Aabb2D, NodeId};
use tree_state::{IndexKey, Tree};

// Inner: a node without an entry gets one; otherwise its entry is updated where the hit box has changed.
// `same` is the caller's test: it has the old and the new hit box as rectangles, and the index's box of the new one is all that is needed here.
pub(crate) fn enter_node(tree: &mut Tree, x: usize, aabb: Aabb2D, same: bool)
    requires { (x < 256) × spec.Enters tree.old x }
    ensures { tree.new ≡ spec.entered tree.old x aabb same }
{
    if !tree.keys[x].committed {
        let id = NodeId(x as u32, tree.slots.generation[x]);
        let key = index_entries::insert_entry(&mut tree.index, aabb, id);
        tree.keys[x] = IndexKey {
            committed: true,
            key,
        };
        return;
    }
    if same {
        return;
    }
    let slot = tree.keys[x].key.0;
    index_entries::update_entry(&mut tree.index, slot, aabb);
}
