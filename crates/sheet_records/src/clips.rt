// The clip of a clip's line.
ghost use Rattle.std.specs.Prelude.{◌≡◌, true};
ghost use Rattle.sheet_format.specs.Sheet.{clip_in_range};
ghost use Rattle.sheet_calls.specs.Calls as call;

use crate::values;
use geometry_clips::clip::Clip;
use sheet_format::ClipLine;

// Inner: the clip of a line that is in range; equal corners stand for none.
pub fn clip_on(c: ClipLine) -> Clip
    requires { clip_in_range c ≡ true }
    ensures { result ≡ call.clip_on c }
{
    if (c.x0 == c.x1) & (c.y0 == c.y1) {
        return Clip::None;
    }
    let x0 = values::real(c.x0);
    let y0 = values::real(c.y0);
    let x1 = values::real(c.x1);
    let y1 = values::real(c.y1);
    let radius = values::real(c.radius);
    Clip::Rounded {
        x0,
        y0,
        x1,
        y1,
        top_left: radius,
        top_right: radius,
        bottom_right: radius,
        bottom_left: radius,
    }
}
