// The readings of world records (tree.rs), as the last commit stored them; refused while a commit is needed.
ghost use Rattle.std.specs.Prelude.{◌≡◌, OnOk};
ghost use Rattle.tree_steps.specs.Readings as reading;
ghost use Rattle.tree_verdicts.specs.Held.{Node};
ghost use Rattle.tree_readings.specs.Answers as spec;

use geometry::affine::Affine;
use geometry::rect::Rect;
use index_types::NodeId;
use tree_state::{Refusal, Tree, check};
use tree_verdicts::{need, nodes};

// 1, 2, 7
fn of_world(tree: &Tree, id: NodeId) -> Result<(), Refusal>
    ensures verdict { result ≡ reading.world_verdict tree.now id }
    ensures live { OnOk result (Node tree.now id) }
{
    nodes::of_node(tree, id)?;
    check(!need::needs_commit(tree), Refusal::NeedsCommit)
}

pub fn world_transform(tree: &Tree, id: NodeId) -> Result<Affine, Refusal>
    ensures { result ≡ spec.world_transform_call tree.now id }
{
    of_world(tree, id)?;
    Ok(tree.worlds[id.0 as usize].transform)
}

pub fn world_bounds(tree: &Tree, id: NodeId) -> Result<Rect, Refusal>
    ensures { result ≡ spec.world_bounds_call tree.now id }
{
    of_world(tree, id)?;
    Ok(tree.worlds[id.0 as usize].bounds)
}

pub fn world_hit_bounds(tree: &Tree, id: NodeId) -> Result<Rect, Refusal>
    ensures { result ≡ spec.world_hit_bounds_call tree.now id }
{
    of_world(tree, id)?;
    Ok(tree.worlds[id.0 as usize].hit_bounds)
}
