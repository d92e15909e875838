// Taps (tree.rs: hit_test_point, path_to_root): the strongest node that the point reaches, and its path from the root in lent room.
#![tactic(auto)]

pub mod candidates; // the strongest of the candidates
pub mod fine; // the test of a node itself
pub mod order; // which of two is the stronger
pub mod paths; // the path from the root

ghost use Rattle.std.specs.Prelude.{◌≡◌, length};
ghost use Rattle.tree_taps.specs.Taps as spec;

pub use crate::candidates::strongest;
use geometry::point::Point;
use index_types::NodeId;
use tree_state::{Refusal, Tree};
use tree_types::QueryFilter;
use tree_verdicts::{nodes, requests};

// A node that is hit, and how many ids stand in front of the room, its path from the root.
#[derive(Clone, Copy)]
pub struct Hit {
    pub node: NodeId,
    pub depth: usize,
}

// The strongest node that the point reaches, if there is one, and its path.
#[tactic(auto, using(crate::proofs::candidates::Tap::tappable), unfolding(tree_steps::specs::Requests::room_if, tree_steps::specs::Requests::ids_in_front))]
pub fn hit_test_point(
    tree: &Tree,
    point: Point,
    filter: QueryFilter,
    room: &mut [u32],
) -> Result<Option<Hit>, Refusal>
    ensures answer { result ≡ spec.tap_call tree.now filter.required_flags point (length room.old) }
    ensures rooms { room.new ≡ spec.tap_room tree.now filter.required_flags point room.old }
{
    let asked = filter.required_flags;
    requests::request_verdict(tree, asked, room.len())?;
    let best = strongest(tree, asked, point);
    let Some(slot) = best else {
        return Ok(None);
    };
    let node = nodes::id_at(tree, slot);
    let depth = paths::write_path(tree, slot, room);
    Ok(Some(Hit { node, depth }))
}
