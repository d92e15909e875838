// The verdict of an insert (tree.rs), in the order of the refusals' numbers.
ghost use Rattle.std.specs.Prelude.{◌≡◌, OnOk};
ghost use Rattle.tree_types.specs.Local.{finite_local};
ghost use Rattle.tree_steps.specs.Structure.{insert_verdict};
ghost use Rattle.tree_insert.specs.Insert.{Room};

use index_types::NodeId;
use tree_state::{Refusal, Tree, check};
use tree_types::LocalNode;
use tree_verdicts::nodes;

// Every number of the record is finite.
#[tactic(auto, unfolding(tree_types::specs::Local::finite_local))]
fn is_finite(local: LocalNode) -> bool
    ensures { result ≡ finite_local local }
{
    local.local_bounds.is_finite()
        && local.hit_slop.is_finite()
        && local.local_transform.is_finite()
        && local.local_clip.is_finite()
}

// Inner: 1, 3, 5, 6, 9.
#[tactic(auto, using(crate::proofs::Accepted::room_told))]
pub(crate) fn test(tree: &Tree, parent: Option<NodeId>, local: LocalNode) -> Result<(), Refusal>
    ensures verdict { result ≡ insert_verdict tree.now parent local }
    ensures room { OnOk result (Room tree.now parent) }
{
    nodes::held(tree)?;
    nodes::of_parent(tree, parent)?;
    check(is_finite(local), Refusal::NotFinite)?;
    check(local.flags.is_known(), Refusal::UnknownFlags)?;
    check(tree.links.count < 256, Refusal::Full)
}
