// The list: boxes 15 wide, each node with eight children, moved by its number. All numbers are exact.
use geometry::affine::Affine;
use geometry::insets::Insets;
use geometry::point::Point;
use geometry::rect::Rect;
use geometry_clips::clip::Clip;
use index_types::NodeId;
use tree_types::{LocalNode, NodeFlags};

pub(crate) fn parent(i: u32) -> Option<NodeId> {
    Some(NodeId(i.checked_sub(1)? / 8, 1))
}

// A shift by a whole number of units.
pub(crate) fn bounds(k: u32) -> Rect {
    let shift = f64::from(k % 2);
    Rect {
        x0: shift,
        y0: 0.0,
        x1: shift + 15.0,
        y1: 15.0,
    }
}

pub(crate) fn moved(x: u32, y: u32) -> Affine {
    Affine {
        a: 1.0,
        b: 0.0,
        c: 0.0,
        d: 1.0,
        e: f64::from(x),
        f: f64::from(y),
    }
}

// Every fourth node has a square clip, every fourth a rounded one.
fn clip(i: u32) -> Clip {
    match i % 4 {
        1 => Clip::Square {
            x0: -100.0,
            y0: -100.0,
            x1: 100.0,
            y1: 100.0,
        },
        2 => Clip::Rounded {
            x0: -100.0,
            y0: -100.0,
            x1: 100.0,
            y1: 100.0,
            top_left: 5.0,
            top_right: 5.0,
            bottom_right: 5.0,
            bottom_left: 5.0,
        },
        _ => Clip::None,
    }
}

pub(crate) fn local(i: u32) -> LocalNode {
    let local_bounds = bounds(0);
    let local_transform = moved(i % 8 * 10, i / 8 % 8 * 10);
    let local_clip = clip(i);
    LocalNode {
        local_bounds,
        hit_slop: Insets {
            x0: 1.0,
            y0: 1.0,
            x1: 1.0,
            y1: 1.0,
        },
        local_transform,
        local_clip,
        z_index: 0,
        flags: NodeFlags(3),
    }
}

pub(crate) fn point(k: u32) -> Point {
    Point {
        x: f64::from(k % 17 * 8),
        y: f64::from(k % 13 * 8),
    }
}

pub(crate) fn rect(k: u32) -> Rect {
    let p = point(k);
    Rect {
        x0: p.x,
        y0: p.y,
        x1: p.x + 20.0,
        y1: p.y + 20.0,
    }
}
