// Boxes in lent room, of four numbers each, and ids, of two.
ghost use Rattle.std.specs.Prelude.{◌≡◌, ◌+◌, ◌*◌, ◌<◌, ◌≤◌, length};
ghost use Rattle.index_types.specs.rooms.Tables.{box_at, put_box, put_id};

use crate::{Aabb2D, NodeId};

// Inner: four numbers of lent room as a box; the room is long enough.
pub fn box_in(room: &[f64], i: usize) -> Aabb2D
    requires { 4 * i + 4 ≤ length room.now }
    ensures { result ≡ box_at room.now i }
{
    let p = 4 * i;
    Aabb2D {
        min_x: room[p],
        min_y: room[p + 1],
        max_x: room[p + 2],
        max_y: room[p + 3],
    }
}

// Inner: a box as four numbers of lent room; the room is long enough.
pub fn put_box_in(room: &mut [f64], i: usize, b: Aabb2D)
    requires { (i < 512) × (4 * i + 4 ≤ length room.old) }
    ensures { room.new ≡ put_box room.old i b }
{
    let p = 4 * i;
    room[p] = b.min_x;
    room[p + 1] = b.min_y;
    room[p + 2] = b.max_x;
    room[p + 3] = b.max_y;
}

// Inner: an id at the place n of room that is long enough for it.
pub fn put_id(room: &mut [u32], n: usize, i: NodeId)
    requires { (n < 512) × (2 * n + 2 ≤ length room.old) }
    ensures { room.new ≡ put_id room.old n i }
{
    let at = 2 * n;
    room[at] = i.0;
    room[at + 1] = i.1;
}
