// Listings (tree.rs: intersect_rect, containing_point): ids in front of lent room, in entry order.
#![tactic(auto)]

pub mod entries; // the entries that are taken

ghost use Rattle.std.specs.Prelude.{◌≡◌, length};
ghost use Rattle.tree_listings.specs.Listings as spec;

use geometry::point::Point;
use geometry::rect::Rect;
use tree_state::{Refusal, Tree};
use tree_types::QueryFilter;
use tree_verdicts::requests;

// The nodes with all asked flags whose hit box and world box meet the rectangle as given, all edges in: how many ids stand in front of the
// room, two numbers each. The room is lent, as there is no heap, and may be longer than what stands in it.
#[tactic(auto, unfolding(tree_steps::specs::Requests::room_if, tree_state::specs::Tree::value_if))]
pub fn intersect_rect(
    tree: &Tree,
    rect: Rect,
    filter: QueryFilter,
    room: &mut [u32],
) -> Result<usize, Refusal>
    ensures answer { result ≡ spec.intersect_call tree.now filter.required_flags rect (length room.old) }
    ensures rooms { room.new ≡ spec.intersect_room tree.now filter.required_flags rect room.old }
{
    let asked = filter.required_flags;
    requests::request_verdict(tree, asked, room.len())?;
    let count = entries::list(tree, rect, asked, room);
    Ok(count)
}

// The same of a point: a rectangle of no size.
#[tactic(auto, using(crate::proofs::entries::Entries::point_listed))]
pub fn containing_point(
    tree: &Tree,
    point: Point,
    filter: QueryFilter,
    room: &mut [u32],
) -> Result<usize, Refusal>
    ensures answer { result ≡ spec.containing_call tree.now filter.required_flags point (length room.old) }
    ensures rooms { room.new ≡ spec.containing_room tree.now filter.required_flags point room.old }
{
    let rect = Rect {
        x0: point.x,
        y0: point.y,
        x1: point.x,
        y1: point.y,
    };
    intersect_rect(tree, rect, filter, room)
}
