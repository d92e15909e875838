// Whether two trees are the same to the bit: every table, also what stands behind what is in use.
use geometry::affine::Affine;
use geometry::insets::Insets;
use geometry::rect::Rect;
use geometry_clips::rounded_rect_radii::RoundedRectRadii;
use index_types::{Aabb2D, Index, Slot, Stored};
use numbers::same;
use tree_state::{Local, Tree, WorldNode};

pub(crate) fn floats(a: &[f64], b: &[f64]) -> bool {
    a.len() == b.len() && a.iter().zip(b).all(|(x, y)| same(*x, *y))
}

fn links(a: &Tree, b: &Tree) -> bool {
    a.slots.generation == b.slots.generation
        && a.slots.used == b.slots.used
        && a.slots.free == b.slots.free
        && a.slots.frees == b.slots.frees
        && a.links.order == b.links.order
        && a.links.depth == b.links.depth
        && a.links.count == b.links.count
}

fn rects(a: Rect, b: Rect) -> bool {
    floats(&[a.x0, a.y0, a.x1, a.y1], &[b.x0, b.y0, b.x1, b.y1])
}

fn insets(a: Insets, b: Insets) -> bool {
    floats(&[a.x0, a.y0, a.x1, a.y1], &[b.x0, b.y0, b.x1, b.y1])
}

fn transforms(a: Affine, b: Affine) -> bool {
    floats(
        &[a.a, a.b, a.c, a.d, a.e, a.f],
        &[b.a, b.b, b.c, b.d, b.e, b.f],
    )
}

fn radii(a: RoundedRectRadii, b: RoundedRectRadii) -> bool {
    floats(
        &[a.top_left, a.top_right, a.bottom_right, a.bottom_left],
        &[b.top_left, b.top_right, b.bottom_right, b.bottom_left],
    )
}

fn local(a: &Local, b: &Local) -> bool {
    rects(a.bounds, b.bounds)
        && insets(a.slop, b.slop)
        && transforms(a.transform, b.transform)
        && a.kind == b.kind
        && rects(a.clip, b.clip)
        && radii(a.radii, b.radii)
        && a.level == b.level
        && a.flags.0 == b.flags.0
}

fn locals(a: &[Local], b: &[Local]) -> bool {
    a.iter().zip(b).all(|(x, y)| local(x, y))
}

fn world(a: &WorldNode, b: &WorldNode) -> bool {
    transforms(a.transform, b.transform)
        && a.clipped == b.clipped
        && rects(a.clip, b.clip)
        && rects(a.bounds, b.bounds)
        && rects(a.hit_bounds, b.hit_bounds)
}

fn worlds(a: &Tree, b: &Tree) -> bool {
    a.worlds.iter().zip(&b.worlds).all(|(v, w)| world(v, w))
        && a.pending
            .rects
            .iter()
            .zip(&b.pending.rects)
            .all(|(r, s)| rects(*r, *s))
        && a.pending.count == b.pending.count
}

fn marks(a: &Tree, b: &Tree) -> bool {
    a.marks == b.marks && a.keys == b.keys
}

fn boxes(a: Aabb2D, b: Aabb2D) -> bool {
    same(a.min_x, b.min_x)
        && same(a.min_y, b.min_y)
        && same(a.max_x, b.max_x)
        && same(a.max_y, b.max_y)
}

fn slots(a: Slot, b: Slot) -> bool {
    a.generation == b.generation
        && a.mark == b.mark
        && a.payload == b.payload
        && boxes(a.aabb, b.aabb)
        && a.kept == b.kept
        && boxes(a.prev, b.prev)
}

fn stored(a: Stored, b: Stored) -> bool {
    a.present == b.present && boxes(a.aabb, b.aabb)
}

fn entries(a: &Index, b: &Index) -> bool {
    a.entries.iter().zip(&b.entries).all(|(x, y)| slots(*x, *y))
        && a.backend
            .entries
            .iter()
            .zip(&b.backend.entries)
            .all(|(x, y)| stored(*x, *y))
}

fn lists(a: &Index, b: &Index) -> bool {
    a.used == b.used
        && a.free == b.free
        && a.frees == b.frees
        && a.dirty == b.dirty
        && a.queued == b.queued
}

pub(crate) fn trees(a: &Tree, b: &Tree) -> bool {
    links(a, b)
        && locals(&a.locals, &b.locals)
        && worlds(a, b)
        && marks(a, b)
        && entries(&a.index, &b.index)
        && lists(&a.index, &b.index)
}
