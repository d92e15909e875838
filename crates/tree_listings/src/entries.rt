// The entries that a listing takes, and their ids in front of lent room.
ghost use Rattle.std.specs.Prelude.{◌≡◌, ◌<◌, length};
ghost use Rattle.tree_steps.specs.Requests as request;
ghost use Rattle.tree_verdicts.specs.Held.{Asked, Accepted};
ghost use Rattle.tree_listings.specs.entries.Entries as spec;

use geometry::rect::Rect;
use index_types::{Aabb2D, rooms};
use tree_state::Tree;
use tree_types::NodeFlags;
use tree_verdicts::nodes;

// Inner: the slot of the node that an entry carries.
pub fn node_of(tree: &Tree, entry: usize) -> u32
    requires { entry < 512 }
    ensures { result ≡ spec.node_of tree.now entry }
{
    tree.index.entries[entry].payload.0
}

// Whether an entry is visited and its node has all asked flags and a world box that meets the rectangle.
#[tactic(auto, unfolding(tree_state::specs::Tree::local_at))]
fn takes(tree: &Tree, entry: usize, rect: Aabb2D, asked: NodeFlags) -> bool
    requires { (entry < 512) × Asked tree.now }
    ensures { result ≡ spec.takes tree.now asked rect entry }
{
    let visited = index_query::visited(&tree.index, entry, rect);
    if !visited {
        return false;
    }
    let slot = node_of(tree, entry) as usize;
    let has = tree.locals[slot].flags;
    let world = tree_types::rect_to_aabb(tree.worlds[slot].bounds);
    has.contains(asked) & world.overlaps(rect)
}

// Inner: the listing, after the tests. No entry stands beyond what is used.
pub(crate) fn list(tree: &Tree, rect: Rect, asked: NodeFlags, room: &mut [u32]) -> usize
    requires { Accepted tree.now (length room.old) }
    ensures rooms { room.new ≡ request.ids_in_front (request.rect_nodes tree.now asked rect) room.old }
    ensures count { result ≡ length (request.rect_nodes tree.now asked rect) }
{
    let given = tree_types::rect_to_aabb(rect); // its corners are not put in order
    let mut count = 0;
    for entry in 0..tree.index.used {
        let take = takes(tree, entry, given, asked);
        if take {
            let id = nodes::id_at(tree, node_of(tree, entry));
            rooms::put_id(room, count, id);
            count += 1;
        }
    }
    count
}
