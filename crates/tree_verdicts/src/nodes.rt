// Tests that the public calls share: whether the tree is sound, the node live, the parent live. What a call may rest on where a test has
// accepted stands in the contract.
ghost use Rattle.std.specs.Prelude.{◌≡◌, ◌<◌, OnOk};
ghost use Rattle.tree_state.specs.Tree as state;
ghost use Rattle.tree_state.specs.declared.Refusal.TheVariants as no;
ghost use Rattle.tree_steps.specs.Setters as spec;
ghost use Rattle.tree_steps.specs.Structure.{parent_live};
ghost use Rattle.tree_verdicts.specs.Held.{Held, Listed, Node};

use index_types::NodeId;
use tree_state::{Refusal, Tree, check};

// 1: the tree is sound.
pub fn held(tree: &Tree) -> Result<(), Refusal>
    ensures verdict { result ≡ spec.held tree.now }
    ensures sound { OnOk result (Held tree.now) }
{
    tree_state::whole(tree);
    check(tree_sound::is_sound(tree), Refusal::Unsound)
}

// Inner: the id of a slot.
pub fn id_at(tree: &Tree, slot: u32) -> NodeId
    requires { slot < 256 }
    ensures { result ≡ state.id_at tree.now slot }
{
    NodeId(slot, tree.slots.generation[slot as usize])
}

// Inner: the slot is in the table of links, under the id's generation.
pub fn is_live(tree: &Tree, id: NodeId) -> bool
    requires { Listed tree.now }
    ensures { result ≡ state.live tree.now id }
{
    tree.links.contains(id.0) && tree.slots.generation[id.0 as usize] == id.1
}

// 1, 2: the tree is sound and the node live.
pub fn of_node(tree: &Tree, id: NodeId) -> Result<(), Refusal>
    ensures verdict { result ≡ spec.of_node tree.now id }
    ensures live { OnOk result (Node tree.now id) }
{
    held(tree)?;
    check(is_live(tree, id), Refusal::DeadNode)
}

// Inner: 3: the parent, if there is one, is live.
pub fn of_parent(tree: &Tree, parent: Option<NodeId>) -> Result<(), Refusal>
    requires { Listed tree.now }
    ensures { result ≡ state.checked_next (parent_live tree.now parent) no.DeadParent }
{
    let Some(above) = parent else {
        return Ok(());
    };
    check(is_live(tree, above), Refusal::DeadParent)
}
