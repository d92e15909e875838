// The path of a tap (tree.rs: path_to_root), from the root in lent room.
ghost use Rattle.std.specs.Prelude.{◌≡◌, ◌≤◌, length};
ghost use Rattle.tree_steps.specs.Requests as request;
ghost use Rattle.tree_verdicts.specs.Held.{Held};
ghost use Rattle.tree_taps.specs.fine.Fine.{Shown};

use index_types::rooms;
use tree_state::Tree;
use tree_verdicts::nodes::id_at;

// Inner: the path from the root to a node in front of the room: the node last, each of the slots above it before. How many: its depth.
// The room is lent, as there is no heap, and may be longer than the path. The climb of `in_clips` writes nothing and stops early, so this is another.
pub(crate) fn write_path(tree: &Tree, slot: u32, room: &mut [u32]) -> usize
    requires { Shown tree.now slot × Held tree.now × (512 ≤ length room.old) }
    ensures rooms { room.new ≡ request.ids_in_front (request.path_to tree.now slot) room.old }
    ensures depth { result ≡ length (request.path_to tree.now slot) }
{
    let at = tree.links.position(slot);
    let len = tree.links.depth[at] as usize;
    let own = id_at(tree, slot);
    rooms::put_id(room, len - 1, own);
    let mut depth = len;
    for above in (0..at).rev() { // up to the root's position
        let d = tree.links.depth[above] as usize;
        if d < depth {
            depth = d;
            let next = id_at(tree, tree.links.order[above]);
            rooms::put_id(room, d - 1, next);
        }
    }
    len
}
