// One live node of a sound tree: its values, its marks, and its entry of the index or that it has none yet.
// A slot is a plain number, its bound in the contracts: a type of its own would be taken apart at each table, and is no plainer.
ghost use Rattle.std.specs.Prelude.{◌≡◌, ◌<◌};
ghost use Rattle.tree_state.specs.Sound as spec;
ghost use Rattle.tree_state.specs.Tree.{key_at};

use geometry::rect::Rect;
use geometry_clips::constructed::is_constructed;
use index_types::NodeId;
use tree_state::Tree;

// Its values are finite, its flags known, and its clip is as constructed.
#[tactic(auto, unfolding(tree_types::specs::Local::finite_local, tree_state::specs::Tree::local_at))]
fn values_right(tree: &Tree, slot: usize) -> bool
    requires { slot < 256 }
    ensures { result ≡ spec.values_right tree.now slot }
{
    let local = tree.locals[slot];
    let clip = local.to_clip();
    local.bounds.is_finite()
        && local.slop.is_finite()
        && local.transform.is_finite()
        && clip.is_finite()
        && local.flags.is_known()
        && is_constructed(clip)
}

// It has a mark if it counts as changed.
fn marks_right(tree: &Tree, slot: usize) -> bool
    requires { slot < 256 }
    ensures { result ≡ spec.marks_right tree.now slot }
{
    let dirty = tree.marks[slot];
    dirty.marked || !(dirty.transform || dirty.clip)
}

// Its key is an unmarked entry's, and the entry carries its id.
fn owns_right(tree: &Tree, slot: usize) -> bool
    requires { slot < 256 }
    ensures { result ≡ spec.owns_right tree.now slot (key_at tree.now slot).0 }
{
    let key = tree.keys[slot].key;
    let at = key.0 as usize;
    if at >= 512 {
        return false;
    }
    let entry = tree.index.entries[at];
    entry.mark == 1
        && entry.generation == key.1
        && entry.payload == NodeId(slot as u32, tree.slots.generation[slot])
}

// No commit has seen it: its world boxes are empty, and it counts as changed in transform and in clip.
#[tactic(auto, unfolding(geometry::specs::Rectangle::rect_eq))]
fn new_right(tree: &Tree, slot: usize) -> bool
    requires { slot < 256 }
    ensures { result ≡ spec.new_right tree.now slot }
{
    let empty = Rect::new(0.0, 0.0, 0.0, 0.0);
    tree.worlds[slot].bounds == empty
        && tree.worlds[slot].hit_bounds == empty
        && (tree.marks[slot].transform && tree.marks[slot].clip)
}

// Inner: the node of a live slot.
#[tactic(auto, unfolding(tree_state::specs::Sound::node_right))]
pub(crate) fn node_right(tree: &Tree, slot: usize) -> bool
    requires { slot < 256 }
    ensures { result ≡ spec.node_right tree.now slot }
{
    let committed = tree.keys[slot].committed;
    values_right(tree, slot)
        && marks_right(tree, slot)
        && if committed {
            owns_right(tree, slot)
        } else {
            new_right(tree, slot)
        }
}
