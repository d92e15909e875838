// A rectangle with four radii, kurbo's rounded_rect.rs: the point test, and equality to the bit. Every function takes every f64, NaN and
// infinities included.
ghost use Rattle.std.specs.Prelude.{◌≡◌};
ghost use Rattle.geometry_clips.specs.rounded_rect.RoundedRect as spec;

use crate::rounded_rect_radii::RoundedRectRadii;
use geometry::point::Point;
use geometry::rect::Rect;
use numbers::{abs, max, same};

// How far the offset `d` from the centre reaches past the straight part of a side.
#[tactic(auto, using(numbers::proofs::Numbers::literals), unfolding(crate::specs::rounded_rect::RoundedRect::excess))]
fn excess(d: f64, side: f64, radius: f64) -> f64
    ensures { result ≡ spec.excess d side radius }
{
    let straight = max(side / 2.0 - radius, 0.0);
    max(abs(d) - straight, 0.0)
}

// RoundedRect::winding, as whether it is not 0: measured from the centre, with the radius of the point's quadrant.
#[tactic(auto, using(numbers::proofs::Numbers::literals), unfolding(crate::specs::rounded_rect::RoundedRect::inside_rounded))]
pub fn winding(r: Rect, q: RoundedRectRadii, p: Point) -> bool
    ensures { result ≡ spec.inside_rounded r q p }
{
    let dx = p.x - 0.5 * (r.x0 + r.x1);
    let dy = p.y - 0.5 * (r.y0 + r.y1);
    let radius = q.quadrant(dx, dy);
    let px = excess(dx, r.width(), radius);
    let py = excess(dy, r.height(), radius);
    px * px + py * py <= radius * radius
}

// Inner: equality to the bit.
pub(crate) fn same_rect(r: Rect, s: Rect) -> bool
    ensures { result ≡ spec.same_rect r s }
{
    same(r.x0, s.x0) & same(r.y0, s.y0) & (same(r.x1, s.x1) & same(r.y1, s.y1))
}

// Inner: equality to the bit.
pub(crate) fn same_radii(q: RoundedRectRadii, s: RoundedRectRadii) -> bool
    ensures { result ≡ spec.same_radii q s }
{
    same(q.top_left, s.top_left)
        & same(q.top_right, s.top_right)
        & (same(q.bottom_right, s.bottom_right) & same(q.bottom_left, s.bottom_left))
}
