// The box tree's util.rs, but for `rect_to_aabb`, which stands in `tree_types`.
ghost use Rattle.std.specs.Prelude.{◌≡◌};
ghost use Rattle.geometry.specs.bbox.Bbox.{transform_rect_bbox};

use crate::affine::Affine;
use crate::rect::Rect;
use numbers::{max, min};

// The axis-aligned box of the image of `rect`.
#[tactic(auto, unfolding(crate::specs::bbox::Bbox::transform_rect_bbox))]
pub fn transform_rect_bbox(affine: Affine, rect: Rect) -> Rect
    ensures { result ≡ transform_rect_bbox affine rect }
{
    let a = affine.a;
    let b = affine.b;
    let c = affine.c;
    let d = affine.d;
    let min_x = min(a * rect.x0, a * rect.x1) + min(c * rect.y0, c * rect.y1);
    let max_x = max(a * rect.x0, a * rect.x1) + max(c * rect.y0, c * rect.y1);
    let min_y = min(b * rect.x0, b * rect.x1) + min(d * rect.y0, d * rect.y1);
    let max_y = max(b * rect.x0, b * rect.x1) + max(d * rect.y0, d * rect.y1);
    Rect {
        x0: min_x + affine.e,
        y0: min_y + affine.f,
        x1: max_x + affine.e,
        y1: max_y + affine.f,
    }
}
