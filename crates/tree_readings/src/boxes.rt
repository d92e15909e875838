// The readings of a node's own boxes, transform and clip (tree.rs): each answers from the stored local record, or is refused; none changes
// the tree.
ghost use Rattle.std.specs.Prelude.{◌≡◌};
ghost use Rattle.tree_readings.specs.Answers as spec;

use geometry::affine::Affine;
use geometry::insets::Insets;
use geometry::rect::Rect;
use geometry_clips::clip::Clip;
use index_types::NodeId;
use tree_state::{Refusal, Tree};
use tree_verdicts::nodes;

pub fn local_bounds(tree: &Tree, id: NodeId) -> Result<Rect, Refusal>
    ensures { result ≡ spec.local_bounds_call tree.now id }
{
    nodes::of_node(tree, id)?;
    Ok(tree.locals[id.0 as usize].bounds)
}

pub fn hit_slop(tree: &Tree, id: NodeId) -> Result<Insets, Refusal>
    ensures { result ≡ spec.hit_slop_call tree.now id }
{
    nodes::of_node(tree, id)?;
    Ok(tree.locals[id.0 as usize].slop)
}

pub fn local_transform(tree: &Tree, id: NodeId) -> Result<Affine, Refusal>
    ensures { result ≡ spec.local_transform_call tree.now id }
{
    nodes::of_node(tree, id)?;
    Ok(tree.locals[id.0 as usize].transform)
}

pub fn local_clip(tree: &Tree, id: NodeId) -> Result<Clip, Refusal>
    ensures { result ≡ spec.local_clip_call tree.now id }
{
    nodes::of_node(tree, id)?;
    Ok(tree.locals[id.0 as usize].to_clip())
}
