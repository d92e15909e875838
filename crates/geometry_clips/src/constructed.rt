// Clips as the constructor leaves them: what "Sound tree" asks of a stored clip.
ghost use Rattle.std.specs.Prelude.{◌≡◌};
ghost use Rattle.geometry_clips.specs.constructed.Constructed.{as_constructed};

use crate::clip::Clip;
use crate::rounded_rect::{same_radii, same_rect};
use crate::rounded_rect_radii::RoundedRectRadii;
use geometry::rect::Rect;

// Inner: the constructor leaves the clip as it is, to the bit.
#[tactic(auto, unfolding(crate::specs::constructed::Constructed::as_constructed))]
pub fn is_constructed(clip: Clip) -> bool
    ensures { result ≡ as_constructed clip }
{
    match clip {
        Clip::None => true,
        Clip::Square { x0, y0, x1, y1 } => {
            let r = Rect { x0, y0, x1, y1 };
            same_rect(r.abs(), r)
        }
        Clip::Rounded {
            x0,
            y0,
            x1,
            y1,
            top_left,
            top_right,
            bottom_right,
            bottom_left,
        } => {
            let r = Rect { x0, y0, x1, y1 };
            let q = RoundedRectRadii {
                top_left,
                top_right,
                bottom_right,
                bottom_left,
            };
            same_rect(r.abs(), r) & same_radii(q.fit(r), q) & !q.is_zero()
        }
    }
}
