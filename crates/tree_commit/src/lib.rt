// The box tree's `commit` (tree.rs): every tree and every room is taken, and a refused call leaves both as they were.
#![tactic(auto)]

pub mod queue; // the index's commit within it
pub mod room; // the pending rectangles
pub mod work; // the work on a sound tree

ghost use Rattle.std.specs.Prelude.{◌≡◌, length};
ghost use Rattle.tree_commit.specs.Commit as spec;

use tree_state::{Refusal, Tree, check};
use tree_verdicts::nodes;

// Brings the world records and the index up to date, and writes the damage in front of the room: how many rectangles, of four numbers each.
#[tactic(auto, unfolding(crate::specs::Commit::after_work, crate::specs::Commit::commit_call, crate::specs::Commit::room_after, crate::specs::Commit::commit_room))]
pub fn commit(tree: &mut Tree, room: &mut [f64]) -> Result<usize, Refusal>
    ensures answer { result ≡ (spec.commit_call tree.old (length room.old)).answer }
    ensures tree { tree.new ≡ (spec.commit_call tree.old (length room.old)).tree }
    ensures room { room.new ≡ spec.commit_room tree.old room.old }
{
    nodes::held(tree)?;
    check(!(room.len() < 2048), Refusal::ShortRoom)?;
    Ok(work::commit_sound(tree, room))
}
