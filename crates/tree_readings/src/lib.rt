// The readings of the tree and of local records (tree.rs): each answers from the stored records, or is refused; none changes the tree.
#![tactic(auto, unfolding(tree_state::specs::Tree::local_at, tree_state::specs::Locals::local_in))]

pub mod boxes; // local records
pub mod worlds; // world records

ghost use Rattle.std.specs.Prelude.{◌≡◌};
ghost use Rattle.tree_readings.specs.Answers as spec;

pub use crate::boxes::{hit_slop, local_bounds, local_clip, local_transform};
use index_types::NodeId;
use tree_state::{Refusal, Tree};
use tree_types::NodeFlags;
use tree_verdicts::{need, nodes};

// ---- the tree

pub fn needs_commit(tree: &Tree) -> Result<bool, Refusal>
    ensures { result ≡ spec.needs_commit_call tree.now }
{
    nodes::held(tree)?;
    Ok(need::needs_commit(tree))
}

// A dead id is answered false and never refused.
pub fn is_alive(tree: &Tree, id: NodeId) -> Result<bool, Refusal>
    ensures { result ≡ spec.is_alive_call tree.now id }
{
    nodes::held(tree)?;
    Ok(nodes::is_live(tree, id))
}

// ---- local records

pub fn z_index(tree: &Tree, id: NodeId) -> Result<i32, Refusal>
    ensures { result ≡ spec.z_index_call tree.now id }
{
    nodes::of_node(tree, id)?;
    Ok(tree.locals[id.0 as usize].level)
}

pub fn flags(tree: &Tree, id: NodeId) -> Result<NodeFlags, Refusal>
    ensures { result ≡ spec.flags_call tree.now id }
{
    nodes::of_node(tree, id)?;
    Ok(tree.locals[id.0 as usize].flags)
}
