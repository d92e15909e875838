// The parts of an answer.
use geometry::affine::Affine;
use geometry::insets::Insets;
use geometry::rect::Rect;
use geometry_clips::clip::Clip;
use index_types::NodeId;
use std::io;
use std::io::Write;
use text_lines::print;
use text_lines::print::{Coefficient, Four, Out, Pair};
use tree_types::NodeFlags;

// What an answer shows of a value.
pub(crate) trait Show: Drop {
    fn show(&self, out: &mut Out) -> io::Result<()>;
}

// A call without a value.
impl Show for () {
    fn show(&self, out: &mut Out) -> io::Result<()> {
        write!(out, "ok")
    }
}

impl Show for bool {
    fn show(&self, out: &mut Out) -> io::Result<()> {
        write!(out, "{self}")
    }
}

impl Show for i32 {
    fn show(&self, out: &mut Out) -> io::Result<()> {
        write!(out, "{self}")
    }
}

impl Show for NodeFlags {
    fn show(&self, out: &mut Out) -> io::Result<()> {
        let NodeFlags(bits) = *self;
        write!(out, "{bits}")
    }
}

impl Show for NodeId {
    fn show(&self, out: &mut Out) -> io::Result<()> {
        write!(out, "{}", Pair(self.0, self.1))
    }
}

impl Show for Option<NodeId> {
    fn show(&self, out: &mut Out) -> io::Result<()> {
        match self {
            Some(id) => id.show(out),
            None => write!(out, "none"),
        }
    }
}

impl Show for Rect {
    fn show(&self, out: &mut Out) -> io::Result<()> {
        write!(out, "{}", Four([self.x0, self.y0, self.x1, self.y1]))
    }
}

impl Show for Insets {
    fn show(&self, out: &mut Out) -> io::Result<()> {
        coefficients(out, [self.x0, self.y0, self.x1, self.y1])
    }
}

impl Show for Affine {
    fn show(&self, out: &mut Out) -> io::Result<()> {
        coefficients(out, [self.a, self.b, self.c, self.d])?;
        write!(out, " {} {}", Coefficient(self.e), Coefficient(self.f))
    }
}

impl Show for Clip {
    fn show(&self, out: &mut Out) -> io::Result<()> {
        match *self {
            Clip::None => write!(out, "none"),
            Clip::Square { x0, y0, x1, y1 } => write!(out, "square {}", Four([x0, y0, x1, y1])),
            Clip::Rounded {
                x0,
                y0,
                x1,
                y1,
                top_left,
                top_right,
                bottom_right,
                bottom_left,
            } => {
                let edges = Four([x0, y0, x1, y1]);
                let radii = Four([top_left, top_right, bottom_right, bottom_left]);
                write!(out, "rounded {edges} {radii}")
            }
        }
    }
}

fn coefficients(out: &mut Out, numbers: [f64; 4]) -> io::Result<()> {
    let [a, b, c, d] = numbers.map(Coefficient);
    write!(out, "{a} {b} {c} {d}")
}

// The number of ids in front of the room, then the ids.
pub(crate) fn ids(out: &mut Out, room: &[u32], count: usize) -> io::Result<()> {
    write!(out, "{count}")?;
    print::pairs(out, print::front(room, count, 2))
}

// The number of rectangles in front of the room, then the rectangles.
pub(crate) fn rects(out: &mut Out, room: &[f64], count: usize) -> io::Result<()> {
    write!(out, "{count}")?;
    print::numbers(out, print::front(room, count, 4))
}
