// The readings of links (tree.rs): a node's parent, children and neighbours in a walk.
#![tactic(auto)]

pub mod children; // a node's children
pub mod walks; // its neighbours in a walk

ghost use Rattle.std.specs.Prelude.{◌≡◌};
ghost use Rattle.tree_steps.specs.Readings as reading;
ghost use Rattle.tree_readings.specs.Answers as spec;
ghost use Rattle.tree_verdicts.specs.Held.{Node};

pub use crate::children::children_of;
use crate::walks::{next_in_order, prev_in_order};
use index_types::NodeId;
use tree_state::{Refusal, Tree};
use tree_verdicts::nodes;

fn parent(tree: &Tree, id: NodeId) -> Option<NodeId>
    requires { Node tree.now id }
    ensures { result ≡ reading.parent_of tree.now id.0 }
{
    let above = tree.links.parent_at(tree.links.position(id.0))?;
    Some(nodes::id_at(tree, above))
}

pub fn next_depth_first(tree: &Tree, id: NodeId) -> Result<Option<NodeId>, Refusal>
    ensures { result ≡ spec.next_call tree.now id }
{
    nodes::of_node(tree, id)?;
    Ok(next_in_order(tree, id))
}

pub fn prev_depth_first(tree: &Tree, id: NodeId) -> Result<Option<NodeId>, Refusal>
    ensures { result ≡ spec.prev_call tree.now id }
{
    nodes::of_node(tree, id)?;
    Ok(prev_in_order(tree, id))
}

pub fn parent_of(tree: &Tree, id: NodeId) -> Result<Option<NodeId>, Refusal>
    ensures { result ≡ spec.parent_call tree.now id }
{
    nodes::of_node(tree, id)?;
    Ok(parent(tree, id))
}
