// The fine test of a tap on a node: its flags, its bounds plus slop and its clip, and the clips of those above it (tree.rs: hit_test_point).
ghost use Rattle.std.specs.Prelude.{◌≡◌, ◌<◌};
ghost use Rattle.tree_steps.specs.Commit.{ancestors};
ghost use Rattle.tree_steps.specs.Requests as request;
ghost use Rattle.tree_taps.specs.fine.Fine as spec;

use geometry::point::Point;
use tree_state::Tree;
use tree_types::NodeFlags;

// Whether the point, mapped back by the inverse of the node's world transform, is in its clip.
#[tactic(auto, unfolding(crate::specs::fine::Fine::clip_holds))]
fn in_clip(tree: &Tree, slot: usize, point: Point) -> bool
    requires { slot < 256 }
    ensures { result ≡ spec.clip_holds tree.now point slot }
{
    let own = tree.locals[slot].to_clip();
    let placed = tree.worlds[slot].transform;
    own.contains(placed.inverse().map_point(point))
}

// The climb: the same of every node above the position `at`, each under its own inverse. (The climb of `write_path` does not stop early, and writes:
// one function for both would be no plainer.)
fn in_clips(tree: &Tree, at: usize, point: Point) -> bool
    requires { (at < tree.now.links.count) × spec.Tappable tree.now }
    ensures { result ≡ request.in_stored_clips tree.now (ancestors tree.now at) point }
{
    let mut depth = tree.links.depth[at];
    for above in (0..at).rev() {
        if tree.links.depth[above] < depth {
            depth = tree.links.depth[above];
            let slot = tree.links.order[above] as usize;
            if !in_clip(tree, slot, point) {
                return false;
            }
        }
    }
    true
}

// Whether the point reaches a node: bounds plus slop and own clip.
#[tactic(auto, unfolding(crate::specs::fine::Fine::reaches, tree_state::specs::Tree::local_at))]
fn reaches(tree: &Tree, slot: usize, point: Point) -> bool
    requires { slot < 256 }
    ensures { result ≡ spec.reaches tree.now point slot }
{
    let local = tree.locals[slot];
    let placed = tree.worlds[slot].transform;
    tree_worlds::contains(
        placed.inverse(),
        local.bounds,
        local.slop,
        local.to_clip(),
        point,
    )
}

// Inner: the fine test of a node: flags, the node itself, the clips above it.
#[tactic(auto, unfolding(crate::specs::fine::Fine::reaches, tree_state::specs::Tree::local_at, tree_steps::specs::Requests::fine))]
pub(crate) fn fine(tree: &Tree, slot: usize, asked: NodeFlags, point: Point) -> bool
    requires { spec.Shown tree.now slot × spec.Tappable tree.now }
    ensures { result ≡ request.fine tree.now asked point slot }
{
    let has = tree.locals[slot].flags;
    if !has.contains(asked) {
        return false;
    }
    if !reaches(tree, slot, point) {
        return false;
    }
    let at = tree.links.position(slot as u32);
    in_clips(tree, at, point)
}
