// The work of a commit (tree.rs), on a sound tree and with room enough.
ghost use Rattle.std.specs.Prelude.{◌≡◌, ◌≤◌, length};
ghost use Rattle.tree_steps.specs.Commit.{commit_tree, rects_in_front};
ghost use Rattle.tree_verdicts.specs.Held.{Held};

use crate::{queue, room};
use tree_state::{Dirty, Tree};
use tree_verdicts::need;

// Inner: the commit of a sound tree, with room enough: the pending rectangles, the rework of each position that the marks call for, the index's
// commit; no mark, nothing that counts as changed and no pending rectangle is left. A tree that needs none stays as it is. How many rectangles
// of damage stand in front of the room is returned.
#[tactic(auto, unfolding(tree_steps::specs::Commit::commit_tree))]
pub fn commit_sound(tree: &mut Tree, room: &mut [f64]) -> usize
    requires { Held tree.old × (2048 ≤ length room.old) }
    ensures tree { tree.new ≡ (commit_tree tree.old).tree }
    ensures count { result ≡ length (commit_tree tree.old).damage }
    ensures room { room.new ≡ rects_in_front (commit_tree tree.old).damage room.old }
{
    let need = need::needs_commit(tree);
    if !need {
        return 0;
    }
    let pending = tree.pending.count;
    room::put_pending(&tree.pending, room);
    let mut visits = [0u32; 256];
    let n = tree_visits::positions(tree, &mut visits);
    let count = tree_rework::rework_all(tree, &visits[..n], room, pending);
    queue::commit_index(&mut tree.index);
    tree.marks = [Dirty {
        marked: false,
        transform: false,
        clip: false,
    }; 256];
    tree.pending.count = 0;
    count
}
