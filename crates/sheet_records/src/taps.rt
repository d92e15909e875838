// The point of a tap's line, and the flags that it asks for.
ghost use Rattle.std.specs.Prelude.{◌≡◌, true};
ghost use Rattle.sheet_format.specs.Sheet.{tap_in_range};
ghost use Rattle.sheet_calls.specs.Answers as spec;

use crate::values;
use geometry::point::Point;
use sheet_format::TapLine;
use tree_types::NodeFlags;

// Inner: the point of a tap's line that is in range.
pub fn point_of(t: TapLine) -> Point
    requires { tap_in_range t ≡ true }
    ensures { result ≡ spec.point_of t }
{
    let x = values::real(t.x);
    let y = values::real(t.y);
    Point { x, y }
}

// Inner: the flags that it asks for.
pub fn asked_of(t: TapLine) -> NodeFlags
    requires { tap_in_range t ≡ true }
    ensures { result ≡ spec.asked_of t }
{
    let bits = values::small(t.flags);
    NodeFlags(bits)
}
