// The setters of a node's own boxes: tree.rs's `set_local_bounds` and `set_hit_slop` (see tree_setters).
ghost use Rattle.std.specs.Prelude.{◌≡◌};
ghost use Rattle.tree_steps.specs.Setters as spec;

use geometry::insets::Insets;
use geometry::rect::Rect;
use index_types::NodeId;
use tree_state::{Refusal, Tree, check};
use tree_verdicts::nodes;

#[tactic(auto, unfolding(tree_steps::specs::Setters::set_bounds, geometry::specs::Rectangle::rect_eq))]
pub fn set_local_bounds(tree: &mut Tree, id: NodeId, bounds: Rect) -> Result<(), Refusal>
    ensures answer { result ≡ (spec.bounds_call tree.old id bounds).answer }
    ensures tree { tree.new ≡ (spec.bounds_call tree.old id bounds).tree }
{
    nodes::of_node(tree, id)?;
    check(bounds.is_finite(), Refusal::NotFinite)?;
    let slot = id.0 as usize;
    let stored = tree.locals[slot].bounds;
    if stored == bounds {
        return Ok(());
    }
    tree.locals[slot].bounds = bounds;
    tree.marks[slot].marked = true; // alone: no place of a node changes
    Ok(())
}

#[tactic(auto, unfolding(tree_steps::specs::Setters::set_slop, geometry::specs::Parts::insets_eq))]
pub fn set_hit_slop(tree: &mut Tree, id: NodeId, slop: Insets) -> Result<(), Refusal>
    ensures answer { result ≡ (spec.slop_call tree.old id slop).answer }
    ensures tree { tree.new ≡ (spec.slop_call tree.old id slop).tree }
{
    nodes::of_node(tree, id)?;
    check(slop.is_finite(), Refusal::NotFinite)?;
    let slot = id.0 as usize;
    let stored = tree.locals[slot].slop;
    if stored == slop {
        return Ok(());
    }
    tree.locals[slot].slop = slop;
    tree.marks[slot].marked = true; // alone, as for the bounds
    Ok(())
}
