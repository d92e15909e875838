// The setters that call for no commit: tree.rs's `set_z_index` and `set_flags` (see tree_setters).
ghost use Rattle.std.specs.Prelude.{◌≡◌};
ghost use Rattle.tree_steps.specs.Setters as spec;

use index_types::NodeId;
use tree_state::{Refusal, Tree, check};
use tree_types::NodeFlags;
use tree_verdicts::nodes;

#[tactic(auto, unfolding(tree_steps::specs::Setters::set_level))]
pub fn set_z_index(tree: &mut Tree, id: NodeId, z_index: i32) -> Result<(), Refusal>
    ensures answer { result ≡ (spec.level_call tree.old id z_index).answer }
    ensures tree { tree.new ≡ (spec.level_call tree.old id z_index).tree }
{
    nodes::of_node(tree, id)?;
    tree.locals[id.0 as usize].level = z_index;
    Ok(())
}

#[tactic(auto, unfolding(tree_steps::specs::Setters::set_flags))]
pub fn set_flags(tree: &mut Tree, id: NodeId, flags: NodeFlags) -> Result<(), Refusal>
    ensures answer { result ≡ (spec.flags_call tree.old id flags).answer }
    ensures tree { tree.new ≡ (spec.flags_call tree.old id flags).tree }
{
    nodes::of_node(tree, id)?;
    check(flags.is_known(), Refusal::UnknownFlags)?;
    tree.locals[id.0 as usize].flags = flags;
    Ok(())
}
