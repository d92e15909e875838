// The verdict that every request shares.
ghost use Rattle.std.specs.Prelude.{◌≡◌, OnOk};
ghost use Rattle.tree_steps.specs.Requests as spec;
ghost use Rattle.tree_verdicts.specs.Held.{Asked, Accepted};

use crate::{need, nodes};
use tree_state::{Refusal, Tree, check};
use tree_types::NodeFlags;

// Inner: 1, 6, 7.
fn asked_verdict(tree: &Tree, asked: NodeFlags) -> Result<(), Refusal>
    ensures verdict { result ≡ spec.asked_verdict tree.now asked }
    ensures accepted { OnOk result (Asked tree.now) }
{
    nodes::held(tree)?;
    check(asked.is_known(), Refusal::UnknownFlags)?;
    check(!need::needs_commit(tree), Refusal::NeedsCommit)
}

// 1, 6, 7, then 8: room of this length is too short for 256 ids.
pub fn request_verdict(tree: &Tree, asked: NodeFlags, length: usize) -> Result<(), Refusal>
    ensures verdict { result ≡ spec.request_verdict tree.now asked length }
    ensures accepted { OnOk result (Accepted tree.now length) }
{
    asked_verdict(tree, asked)?;
    check(length >= 512, Refusal::ShortRoom)
}
