// The damage of a tree's commit, as it stands in lent room: understory_box_tree's damage.rs. The commit's answer has the count.
#![tactic(auto)]

ghost use Rattle.std.specs.Prelude.{◌≡◌, ◌*◌, ◌≤◌, length};
ghost use Rattle.tree_steps.specs.Commit.{rects_of};
ghost use Rattle.tree_damage.specs.Damage as spec;

use geometry::rect::Rect;
use tree_state::Refusal;
use tree_types::rooms::rect_in;

// One rectangle more: the first starts the union.
#[tactic(auto, unfolding(crate::specs::Damage::with_rect))]
fn with_rect(united: Option<Rect>, r: Rect) -> Option<Rect>
    ensures { result ≡ spec.with_rect united r }
{
    match united {
        None => Some(r),
        Some(u) => Some(u.union(r)),
    }
}

// The first n rectangles of a room, joined one after the other.
#[tactic(auto, using(crate::proofs::Joins::rects_none, crate::proofs::Joins::rects_next))]
fn join_all(room: &[f64], n: usize) -> Option<Rect>
    requires { 4 * n ≤ length room.now }
    ensures { result ≡ spec.joined (rects_of room.now n) }
{
    let mut united = None;
    for i in 0..n {
        let next = rect_in(room, i);
        united = with_rect(united, next);
    }
    united
}

// The union of the rectangles that the count says stand in front of the room; refused where the room is shorter. Room and count stay two: the room is
// lent, no heap, and longer than what stands in it.
#[tactic(auto, unfolding(crate::specs::Damage::union_rect))]
pub fn union_rect(room: &[f64], count: usize) -> Result<Option<Rect>, Refusal>
    ensures { result ≡ spec.union_rect room.now count }
{
    if room.len() / 4 < count {
        return Err(Refusal::ShortRoom);
    }
    Ok(join_all(room, count))
}
