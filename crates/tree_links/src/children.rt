// The reading of a node's children (see tree_links): their ids, in order, in front of the room.
ghost use Rattle.std.specs.Prelude.{◌≡◌, ℕ, map, ◌<◌, ◌≤◌, length, get_or};
ghost use Rattle.tree_state.specs.Tree as state;
ghost use Rattle.tree_steps.specs.Requests as request;
ghost use Rattle.tree_steps.specs.Readings as reading;
ghost use Rattle.tree_verdicts.specs.Held.{Node};
ghost use Rattle.tree_readings.specs.Answers as spec;

use index_types::{NodeId, rooms};
use tree_state::{Refusal, Tree, check};
use tree_verdicts::nodes;

// The ids of the slots, in front of the room.
fn put_ids(tree: &Tree, slots: &[u32], room: &mut [u32])
    requires { (length slots.now ≤ 256) × ((j : ℕ) → j < length slots.now → get_or slots.now j 0 < 256) × (512 ≤ length room.old) }
    ensures { room.new ≡ request.ids_in_front (map (state.id_at tree.now) slots.now) room.old }
{
    for (i, slot) in slots.iter().enumerate() {
        rooms::put_id(room, i, nodes::id_at(tree, *slot));
    }
}

// The children of a live node in a sound tree, and how many.
fn put_children(tree: &Tree, id: NodeId, room: &mut [u32]) -> usize
    requires { Node tree.now id × (512 ≤ length room.old) }
    ensures { (room.new ≡ request.ids_in_front (reading.children_of tree.now id.0) room.old)
        × (result ≡ length (reading.children_of tree.now id.0)) }
{
    let at = tree.links.position(id.0);
    let end = tree.links.segment_end(at);
    let mut slots = [0; 256];
    let count = tree
        .links
        .slots_at(at, end, tree.links.depth[at] + 1, &mut slots);
    put_ids(tree, &slots[..count], room);
    count
}

// The ids of the children, in order, in front of the room.
#[tactic(auto, unfolding(tree_steps::specs::Requests::room_if))]
pub fn children_of(tree: &Tree, id: NodeId, room: &mut [u32]) -> Result<usize, Refusal>
    ensures answer { result ≡ spec.children_call tree.now id (length room.old) }
    ensures rooms { room.new ≡ spec.children_room tree.now id room.old }
{
    nodes::of_node(tree, id)?;
    check(!(room.len() < 512), Refusal::ShortRoom)?;
    Ok(put_children(tree, id, room))
}
