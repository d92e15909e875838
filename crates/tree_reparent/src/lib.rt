// tree.rs's `reparent`: a node with its subtree becomes the last child of its new parent or the last root, marked, and changed in both. A refused
// call leaves the tree as it is.
#![tactic(auto)]

ghost use Rattle.std.specs.Prelude.{◌≡◌, ◌<◌};
ghost use Rattle.tree_steps.specs.Structure as step;
ghost use Rattle.tree_verdicts.specs.Held.{Held};
ghost use Rattle.tree_reparent.specs.Below as spec;

use index_types::NodeId;
use tree_state::{Refusal, Tree, check};
use tree_verdicts::{marks, nodes};

// Whether the parent is the node at the position `at` or below it: two comparisons of positions.
fn is_below(tree: &Tree, at: usize, parent: Option<NodeId>) -> bool
    requires { Held tree.now × (at < tree.now.links.count) }
    ensures { result ≡ step.at_or_below tree.now at parent }
{
    let Some(above) = parent else {
        return false;
    };
    let to = tree.links.position(above.0);
    let end = tree.links.segment_end(at);
    (at <= to) & (to < end)
}

// Last under the new parent, or last of the roots.
fn move_links(tree: &mut Tree, at: usize, parent: Option<NodeId>)
    requires { Held tree.old × (at < tree.old.links.count) × spec.Outside tree.old at parent }
    ensures { tree.new ≡ step.with_links tree.old (step.move_links tree.old at parent) }
{
    match parent {
        None => tree.links.move_root(at),
        Some(above) => {
            let to = tree.links.position(above.0);
            tree.links.move_last(at, to);
        }
    }
}

#[tactic(auto, unfolding(tree_steps::specs::Structure::reparent_tree))]
pub fn reparent(tree: &mut Tree, id: NodeId, parent: Option<NodeId>) -> Result<(), Refusal>
    ensures answer { result ≡ (step.reparent_call tree.old id parent).answer }
    ensures tree { tree.new ≡ (step.reparent_call tree.old id parent).tree }
{
    nodes::of_node(tree, id)?;
    nodes::of_parent(tree, parent)?;
    let at = tree.links.position(id.0);
    let below = is_below(tree, at, parent);
    check(!below, Refusal::BelowItself)?;
    move_links(tree, at, parent);
    marks::mark_both(&mut tree.marks, id.0 as usize);
    Ok(())
}
