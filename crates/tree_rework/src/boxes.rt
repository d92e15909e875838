// The damage of a box that has changed, in lent room (tree.rs: update_world_subtree).
ghost use Rattle.std.specs.Prelude.{◌≡◌, ◌+◌, ◌≤◌, length};
ghost use Rattle.tree_steps.specs.Commit.{if_area, damage_of};
ghost use Rattle.tree_rework.specs.Damage as spec;

use geometry::rect::Rect;
use tree_types::rooms;

// Puts a rectangle behind the n that stand in the room, if it has area. How many stand there then is returned.
#[tactic(auto, using(crate::proofs::Rooms::area_yes, crate::proofs::Rooms::area_no), unfolding(crate::specs::Damage::laid))]
fn push_area(room: &mut [f64], n: usize, r: Rect) -> usize
    requires { (n + length (if_area r) ≤ 512) × (2048 ≤ length room.old) }
    ensures { (room.new ≡ spec.laid room.old n (if_area r)) × (result ≡ n + length (if_area r)) }
{
    if !r.has_area() {
        return n;
    }
    rooms::put_rect_in(room, n, r);
    n + 1
}

// Inner: a changed box gives its old form, then its new, as damage behind the n rectangles that stand in the room. How many stand there
// then is returned.
#[tactic(auto, using(crate::proofs::Rooms::laid_two), unfolding(crate::specs::Damage::laid, geometry::specs::Rectangle::rect_eq))]
pub(crate) fn push_damage(room: &mut [f64], n: usize, old: Rect, new: Rect) -> usize
    requires { (n + length (damage_of old new) ≤ 512) × (2048 ≤ length room.old) }
    ensures { (room.new ≡ spec.laid room.old n (damage_of old new)) × (result ≡ n + length (damage_of old new)) }
{
    let same = old == new;
    if same {
        return n;
    }
    let m = push_area(room, n, old);
    push_area(room, m, new)
}
