// Rectangles in lent room, of four numbers each.
ghost use Rattle.std.specs.Prelude.{◌≡◌, ◌+◌, ◌*◌, ◌≤◌, length};
ghost use Rattle.tree_types.specs.rooms.Rooms as spec;

use geometry::rect::Rect;

// Inner: four numbers of lent room as a rectangle; the room is long enough.
#[tactic(auto, unfolding(crate::specs::rooms::Rooms::rect_at))]
pub fn rect_in(room: &[f64], i: usize) -> Rect
    requires { 4 * i + 4 ≤ length room.now }
    ensures { result ≡ spec.rect_at room.now i }
{
    let at = 4 * i;
    Rect {
        x0: room[at],
        y0: room[at + 1],
        x1: room[at + 2],
        y1: room[at + 3],
    }
}

// Inner: a rectangle as four numbers of lent room; the room is long enough.
#[tactic(auto, unfolding(crate::specs::rooms::Rooms::put_rect))]
pub fn put_rect_in(room: &mut [f64], i: usize, r: Rect)
    requires { 4 * i + 4 ≤ length room.old }
    ensures { room.new ≡ spec.put_rect room.old i r }
{
    let at = 4 * i;
    room[at] = r.x0;
    room[at + 1] = r.y0;
    room[at + 2] = r.x1;
    room[at + 3] = r.y1;
}
