// World records of one node: the part of tree.rs that works them out (update_world_subtree, hit_test_point), over the typed values of the
// geometry. Each contract says which definition of specs/ the result equals.
#![tactic(auto)]

ghost use Rattle.std.specs.Prelude.{◌≡◌};
ghost use Rattle.tree_worlds.specs.World as spec;

use geometry::affine::Affine;
use geometry::bbox::transform_rect_bbox;
use geometry::insets::Insets;
use geometry::point::Point;
use geometry::rect::Rect;
use geometry_clips::clip::Clip;

// What a node hands down to its children: its world transform and its world clip.
#[derive(Clone, Copy)]
pub struct Placed {
    pub transform: Affine,
    pub clip: Option<Rect>,
}

// What stands above a root.
pub fn at_root() -> Placed
    ensures { result ≡ spec.at_root }
{
    let transform = Affine::identity();
    Placed {
        transform,
        clip: None,
    }
}

// The image of a clip's rectangle, if there is one.
#[tactic(auto, unfolding(crate::specs::World::image))]
fn image(t: Affine, r: Option<Rect>) -> Option<Rect>
    ensures { result ≡ spec.image t r }
{
    r.map(|r| transform_rect_bbox(t, r))
}

// Both clips intersected, or the one there is.
#[tactic(auto, unfolding(crate::specs::World::meet, crate::specs::World::meet_own))]
fn meet(own: Option<Rect>, parent: Option<Rect>) -> Option<Rect>
    ensures { result ≡ spec.meet own parent }
{
    match (own, parent) {
        (Some(r), Some(p)) => Some(r.intersect(p)),
        _ => own.or(parent),
    }
}

// A rectangle intersected with the world clip, if there is one.
#[tactic(auto, unfolding(crate::specs::World::clipped))]
fn clipped(r: Rect, clip: Option<Rect>) -> Rect
    ensures { result ≡ spec.clipped r clip }
{
    clip.map_or(r, |c| r.intersect(c))
}

// A node's world transform and world clip.
#[tactic(auto, unfolding(crate::specs::World::placed))]
pub fn place(parent: Placed, local_transform: Affine, local_clip: Clip) -> Placed
    ensures { result ≡ spec.placed parent local_transform local_clip }
{
    let above = parent.transform;
    let outer = parent.clip;
    let transform = above * local_transform;
    let own = image(transform, local_clip.rect());
    let clip = meet(own, outer);
    Placed { transform, clip }
}

// The world box.
#[tactic(auto, unfolding(crate::specs::World::world_box))]
pub fn world_bounds(w: Placed, local_bounds: Rect) -> Rect
    ensures { result ≡ spec.world_box w local_bounds }
{
    let t = w.transform;
    let c = w.clip;
    clipped(transform_rect_bbox(t, local_bounds), c)
}

// The world hit box: the world box where all slops are 0.
#[tactic(auto, unfolding(crate::specs::World::hit_box))]
pub fn world_hit_bounds(w: Placed, local_bounds: Rect, hit_slop: Insets) -> Rect
    ensures { result ≡ spec.hit_box w local_bounds hit_slop }
{
    if hit_slop.is_zero() {
        return world_bounds(w, local_bounds);
    }
    let grown = local_bounds + hit_slop;
    world_bounds(w, grown)
}

// The fine test of a tap: the mapped-back point lies in bounds plus slop and in the node's own clip.
#[tactic(auto, unfolding(crate::specs::World::reached))]
pub fn contains(
    inverse: Affine,
    local_bounds: Rect,
    hit_slop: Insets,
    local_clip: Clip,
    point: Point,
) -> bool
    ensures { result ≡ spec.reached inverse local_bounds hit_slop local_clip point }
{
    let local_point = inverse.map_point(point);
    let region = local_bounds + hit_slop;
    let in_bounds = region.contains(local_point);
    let in_clip = local_clip.contains(local_point);
    in_bounds & in_clip
}
