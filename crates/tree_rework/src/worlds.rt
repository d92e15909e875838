// A node's world transform and clip, from what its parent hands down (tree.rs: update_world_subtree).
ghost use Rattle.std.specs.Prelude.{◌≡◌, ℕ, ◌<◌};
ghost use Rattle.tree_steps.specs.Commit as spec;
ghost use Rattle.tree_rework.specs.preconditions.Fits.{slot_at};

use tree_state::Tree;
use tree_worlds::Placed;

// What the position `at` gets from above: the parent's stored transform and clip, or those above a root.
#[tactic(auto, using(crate::proofs::Parents::above_root, crate::proofs::Parents::above_child, crate::proofs::Parents::parent_low))]
fn handed_down(tree: &Tree, at: usize) -> Placed
    requires { (at < 256) × ((j : ℕ) → j < at → slot_at tree.now j < 256) }
    ensures { result ≡ spec.handed_down tree.now (spec.ancestors tree.now at) }
{
    match tree.links.parent_at(at) {
        None => tree_worlds::at_root(),
        Some(parent) => tree.worlds[parent as usize].place(),
    }
}

// Inner: the world transform and clip of the slot x at the position `at`.
pub(crate) fn place_node(tree: &Tree, at: usize, x: usize) -> Placed
    requires { (x < 256) × (at < 256) × ((j : ℕ) → j < at → slot_at tree.now j < 256) }
    ensures { result ≡ spec.new_place tree.now at x }
{
    let parent = handed_down(tree, at);
    let local = tree.locals[x];
    tree_worlds::place(parent, local.transform, local.to_clip())
}
