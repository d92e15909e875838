// What the tree is handed of a sheet's lines: the local record of a place, the clip of a clip's line, the point and the flags of a tap.
#![tactic(auto)]

// The clip of a clip's line.
pub mod clips;
// Orientations, in whole numbers.
pub mod orientations;
// The point of a tap's line, and the flags that it asks for.
pub mod taps;
// The whole numbers of a line, as the tree takes them.
pub mod values;

ghost use Rattle.std.specs.Prelude.{◌≡◌, true};
ghost use Rattle.geometry.specs.Rectangle.{rect};
ghost use Rattle.sheet_format.specs.Sheet.{place_in_range};
ghost use Rattle.sheet_calls.specs.Calls as call;
ghost use Rattle.sheet_records.specs.orientations.Turns as spec;

use crate::orientations::Linear;
use geometry::affine::Affine;
use geometry::insets::Insets;
use geometry::rect::Rect;
use geometry_clips::clip::Clip;
use sheet_format::PlaceLine;
use tree_types::{LocalNode, NodeFlags};

// The orientation, and the shift last.
fn shifted(m: Linear, x: i64, y: i64) -> Affine
    ensures { result ≡ call.shifted (spec.linear m) x y }
{
    let a = values::real(m.a);
    let b = values::real(m.b);
    let c = values::real(m.c);
    let d = values::real(m.d);
    let e = values::real(x);
    let f = values::real(y);
    Affine { a, b, c, d, e, f }
}

// The four numbers stand side by side on a line, and the lines' records have them so: a record of them would be no plainer here.
fn bounds(x0: i64, y0: i64, x1: i64, y1: i64) -> Rect
    ensures { result ≡ rect (call.real x0) (call.real y0) (call.real x1) (call.real y1) }
{
    let a = values::real(x0);
    let b = values::real(y0);
    let c = values::real(x1);
    let d = values::real(y1);
    Rect {
        x0: a,
        y0: b,
        x1: c,
        y1: d,
    }
}

// Inner: the record of a line that is in range, with its clip.
pub fn local_of(p: PlaceLine, clip: Clip) -> LocalNode
    requires { place_in_range p ≡ true }
    ensures { result ≡ call.local_of p clip }
{
    let k = values::small(p.orientation) as u64;
    let m = orientations::orientation(k);
    let tf = shifted(m, p.x, p.y);
    let area = bounds(p.x0, p.y0, p.x1, p.y1);
    let s = values::real(p.slop);
    let z = values::level(p.level);
    let bits = values::small(p.flags);
    LocalNode {
        local_bounds: area,
        hit_slop: Insets {
            x0: s,
            y0: s,
            x1: s,
            y1: s,
        },
        local_transform: tf,
        local_clip: clip,
        z_index: z,
        flags: NodeFlags(bits),
    }
}
