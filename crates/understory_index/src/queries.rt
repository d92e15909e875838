// The index's queries (understory_index's index.rs). They take every index, box and room; a refused call leaves the room as it was.
ghost use Rattle.std.specs.Prelude.{◌≡◌, length};
ghost use Rattle.index_state.specs.Calls as spec;
ghost use Rattle.index_state.specs.Index.{rect_slots, point_slots};

use counting::check;
use index_types::{Aabb2D, Index, Refusal};

// Lists the entries whose boxes, as the last commit left them, meet the rectangle, all edges in; in rising slot order. How many they are is
// returned.
pub fn query_rect(index: &Index, rect: Aabb2D, room: &mut [u32]) -> Result<usize, Refusal>
    ensures answer { spec.queried_told result ≡ spec.told index.now (spec.query_rect rect (length room.old)) }
    ensures rooms { room.new ≡ spec.query_room index.now (rect_slots index.now rect) room.old }
{
    check(index_sound::is_sound(index), Refusal::Unsound)?;
    let is_short = room.len() < 2048;
    check(!is_short, Refusal::ShortRoom)?;
    Ok(index_query::visit_rect(index, rect, room))
}

// Lists the entries whose boxes contain the point, all edges in: a point is a rectangle of no size.
pub fn query_point(index: &Index, x: f64, y: f64, room: &mut [u32]) -> Result<usize, Refusal>
    ensures answer { spec.queried_told result ≡ spec.told index.now (spec.query_point x y (length room.old)) }
    ensures rooms { room.new ≡ spec.query_room index.now (point_slots index.now x y) room.old }
{
    query_rect(index, Aabb2D::new(x, y, x, y), room)
}
