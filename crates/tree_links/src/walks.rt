// The neighbours of a live node in a walk of its tree (tree.rs: next_in_order, prev_in_order).
ghost use Rattle.std.specs.Prelude.{◌≡◌};
ghost use Rattle.tree_steps.specs.Readings as reading;
ghost use Rattle.tree_verdicts.specs.Held.{Node};

use index_types::NodeId;
use tree_state::Tree;
use tree_verdicts::nodes;

// Inner: the next node of a walk, of a live one in a sound tree.
#[tactic(auto, unfolding(tree_steps::specs::Readings::next_of))]
pub(crate) fn next_in_order(tree: &Tree, id: NodeId) -> Option<NodeId>
    requires { Node tree.now id }
    ensures { result ≡ reading.next_of tree.now id.0 }
{
    let next = tree.links.position(id.0) + 1;
    if next >= tree.links.count || tree.links.depth[next] == 1 {
        return None;
    }
    Some(nodes::id_at(tree, tree.links.order[next]))
}

// Inner: the node before it.
#[tactic(auto, unfolding(tree_steps::specs::Readings::prev_of))]
pub(crate) fn prev_in_order(tree: &Tree, id: NodeId) -> Option<NodeId>
    requires { Node tree.now id }
    ensures { result ≡ reading.prev_of tree.now id.0 }
{
    let at = tree.links.position(id.0);
    let depth = tree.links.depth[at];
    if depth == 1 {
        return None;
    }
    Some(nodes::id_at(tree, tree.links.order[at - 1]))
}
