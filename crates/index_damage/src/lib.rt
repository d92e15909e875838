// The damage of a commit, as it stands in lent room: understory_index's damage.rs. Room for moves is two slices, the old and the new boxes.
#![tactic(auto)]

ghost use Rattle.std.specs.Prelude.{◌≡◌, ◌*◌, ◌≤◌, length};
ghost use Rattle.index_damage.specs.Damage as spec;

use index_types::rooms::box_in;
use index_types::{Aabb2D, Damage, Refusal};

// Whether a commit has found no damage.
pub fn is_empty(damage: Damage) -> bool
    ensures { result ≡ spec.is_empty damage.added damage.removed damage.moved }
{
    (damage.added == 0) & (damage.removed == 0) & (damage.moved == 0)
}

// One box more: the first starts the union.
#[tactic(auto, unfolding(crate::specs::Damage::with_box))]
fn with_box(u: Option<Aabb2D>, b: Aabb2D) -> Option<Aabb2D>
    ensures { result ≡ spec.with_box u b }
{
    match u {
        None => Some(b),
        Some(a) => Some(a.union(b)),
    }
}

// The first n boxes of a room, joined one after the other.
#[tactic(auto, using(crate::proofs::Joins::boxes_next), unfolding(crate::specs::Damage::join_all, crate::specs::Damage::boxes_in))]
fn join_all(start: Option<Aabb2D>, room: &[f64], n: usize) -> Option<Aabb2D>
    requires { 4 * n ≤ length room.now }
    ensures { result ≡ spec.join_all start (spec.boxes_in room.now n) }
{
    let mut u = start;
    for i in 0..n {
        u = with_box(u, box_in(room, i));
    }
    u
}

// The first n moves: the old box, then the new.
#[tactic(auto, using(crate::proofs::Joins::moves_next), unfolding(crate::specs::Damage::join_all, crate::specs::Damage::moves_in))]
fn join_moves(start: Option<Aabb2D>, old: &[f64], new: &[f64], n: usize) -> Option<Aabb2D>
    requires { (4 * n ≤ length old.now) × (4 * n ≤ length new.now) }
    ensures { result ≡ spec.join_all start (spec.moves_in old.now new.now n) }
{
    let mut u = start;
    for i in 0..n {
        u = with_box(with_box(u, box_in(old, i)), box_in(new, i));
    }
    u
}

// The union of the boxes that these counts say stand in the rooms, if there is one: added, removed, then the moves. Refused where a room is
// shorter than its count says.
#[tactic(auto, using(crate::proofs::Joins::short_told, crate::proofs::Joins::union_told))]
pub fn union(
    damage: Damage,
    added: &[f64],
    removed: &[f64],
    old: &[f64],
    new: &[f64],
) -> Result<Option<Aabb2D>, Refusal>
    ensures { spec.joined_told result
        ≡ spec.union_of added.now damage.added removed.now damage.removed old.now new.now damage.moved }
{
    let is_short = (added.len() / 4 < damage.added)
        | (removed.len() / 4 < damage.removed)
        | ((old.len() / 4 < damage.moved) | (new.len() / 4 < damage.moved));
    if is_short {
        return Err(Refusal::ShortRoom);
    }
    let u = join_all(None, added, damage.added);
    let v = join_all(u, removed, damage.removed);
    Ok(join_moves(v, old, new, damage.moved))
}
