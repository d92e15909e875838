// The rework of the positions that a commit visits, one after the other (tree.rs: update_world_subtree).
#![tactic(auto)]

pub mod boxes; // the damage of a changed box
pub mod entries; // the entry in the index
pub mod preconditions; // what a turn needs
pub mod worlds; // the world transform and clip

ghost use Rattle.std.specs.Prelude.{◌≡◌, List, ◌≤◌, length, Float};
ghost use Rattle.geometry.specs.declared.rect.Rect.{Rect};
ghost use Rattle.tree_steps.specs.Commit.{rework_all, rework, rects_in_front};
ghost use Rattle.tree_rework.specs.preconditions.Fits.{Fits, Ready, from};

use tree_state::Tree;

// The rework of the position `at`: its node's world record and entry. Its damage goes behind the `count` rectangles that stand in the room;
// how many stand there then is returned.
#[tactic(auto, unfolding(tree_steps::specs::Commit::rework, geometry::specs::Rectangle::rect_eq))]
fn rework_node(tree: &mut Tree, room: &mut [f64], count: usize, at: usize) -> usize
    requires { (2048 ≤ length room.old) × ((ds : List Rect) × (count ≡ length ds) × Fits (from tree.old ds) at) }
    ensures tree { (ds : List Rect) → tree.new ≡ (rework (from tree.old ds) at).tree }
    ensures damage { (ds : List Rect) → count ≡ length ds → let damage = (rework (from tree.old ds) at).damage in
        (result ≡ length damage)
        × ((before : List Float) → room.old ≡ rects_in_front ds before → room.new ≡ rects_in_front damage before) }
    ensures room { length room.new ≡ length room.old }
{
    let x = tree.links.order[at] as usize;
    let placed = worlds::place_node(tree, at, x);
    let local = tree.locals[x];
    let bounds = tree_worlds::world_bounds(placed, local.bounds);
    let hit = tree_worlds::world_hit_bounds(placed, local.bounds, local.slop);
    let old = tree.worlds[x].bounds;
    let same = tree.worlds[x].hit_bounds == hit;
    let longer = boxes::push_damage(room, count, old, bounds);
    entries::enter_node(tree, x, tree_types::rect_to_aabb(hit), same);
    tree.worlds[x].store(placed, bounds, hit);
    longer
}

// Inner: the rework of the positions `visits`, one after the other. How many rectangles of damage stand in the room then is returned: the
// room is lent with the number of rectangles in front of it, since the project has no heap.
#[tactic(auto, using(crate::proofs::Loop::turn_fits))]
pub fn rework_all(tree: &mut Tree, visits: &[u32], room: &mut [f64], count: usize) -> usize
    requires { (2048 ≤ length room.old) × ((ds : List Rect) × (count ≡ length ds) × Ready tree.old ds visits.now) }
    ensures tree { (ds : List Rect) → tree.new ≡ (rework_all (from tree.old ds) visits.now).tree }
    ensures damage { (ds : List Rect) → count ≡ length ds → let damage = (rework_all (from tree.old ds) visits.now).damage in
        (result ≡ length damage)
        × ((before : List Float) → room.old ≡ rects_in_front ds before → room.new ≡ rects_in_front damage before) }
    ensures room { length room.new ≡ length room.old }
{
    let mut longer = count;
    for at in visits {
        longer = rework_node(tree, room, longer, *at as usize);
    }
    longer
}
