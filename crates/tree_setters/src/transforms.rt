// The setter of where a node lies: tree.rs's `set_local_transform` (see tree_setters).
ghost use Rattle.std.specs.Prelude.{◌≡◌};
ghost use Rattle.tree_steps.specs.Setters as spec;

use geometry::affine::Affine;
use index_types::NodeId;
use tree_state::{Dirty, Refusal, Tree, check};
use tree_verdicts::nodes;

#[tactic(auto, unfolding(geometry::specs::Transform::affine_eq, tree_steps::specs::Setters::set_transform))]
pub fn set_local_transform(tree: &mut Tree, id: NodeId, transform: Affine) -> Result<(), Refusal>
    ensures answer { result ≡ (spec.transform_call tree.old id transform).answer }
    ensures tree { tree.new ≡ (spec.transform_call tree.old id transform).tree }
{
    nodes::of_node(tree, id)?;
    check(transform.is_finite(), Refusal::NotFinite)?;
    let slot = id.0 as usize;
    let stored = tree.locals[slot].transform;
    if stored == transform {
        return Ok(());
    }
    tree.locals[slot].transform = transform;
    tree.marks[slot] = Dirty {
        marked: true,
        transform: true,
        ..tree.marks[slot]
    };
    Ok(())
}
