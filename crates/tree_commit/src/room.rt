// What a commit begins with (tree.rs: commit): the pending rectangles in front of the room.
ghost use Rattle.std.specs.Prelude.{◌≡◌, ◌≤◌, length, take};
ghost use Rattle.tree_steps.specs.Commit.{rects_in_front};

use tree_state::Pending;
use tree_types::rooms;

// Inner: the pending rectangles in front of the room; earlier removals stand first.
#[tactic(auto, unfolding(tree_steps::specs::Commit::rects_in_front))]
pub(crate) fn put_pending(pending: &Pending, room: &mut [f64])
    requires { (pending.now.count ≤ 256) × (2048 ≤ length room.old) }
    ensures { room.new ≡ rects_in_front (take pending.now.count pending.now.rects) room.old }
{
    prove!(pending.rects[..].len() == 256);
    for i in 0..pending.count {
        rooms::put_rect_in(room, i, pending.rects[i]);
    }
}
