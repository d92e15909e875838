// The words of a vector's line, and numbers against words.
ghost use Rattle.std.specs.Prelude.{◌≡◌, true, from_bits};
ghost use Rattle.std.specs.Float.{binary64};

use geometry::affine::Affine;
use geometry::insets::Insets;
use geometry::point::Point;
use geometry::rect::Rect;
use geometry_clips::clip::Clip;
use text_lines::spelling::{float, is_nan, pattern};
use text_lines::words::Words;

// A line that is no vector.
#[derive(Clone, Copy)]
pub(crate) struct Malformed;

// Whether what an operation gives is what the vector has.
pub(crate) type Outcome = Result<bool, Malformed>;

// The words behind the name, each 16 hexadecimal digits.
#[derive(Drop)]
pub(crate) struct Operands<'a> {
    pub(crate) words: Words<'a>,
}

impl<'a> Operands<'a> {
    pub(crate) fn bits(&mut self) -> Result<u64, Malformed> {
        self.words.next().and_then(pattern).ok_or(Malformed)
    }

    pub(crate) fn number(&mut self) -> Result<f64, Malformed> {
        Ok(float(self.bits()?))
    }

    pub(crate) fn point(&mut self) -> Result<Point, Malformed> {
        Ok(Point {
            x: self.number()?,
            y: self.number()?,
        })
    }

    pub(crate) fn rect(&mut self) -> Result<Rect, Malformed> {
        Ok(Rect {
            x0: self.number()?,
            y0: self.number()?,
            x1: self.number()?,
            y1: self.number()?,
        })
    }

    pub(crate) fn insets(&mut self) -> Result<Insets, Malformed> {
        let Rect { x0, y0, x1, y1 } = self.rect()?;
        Ok(Insets { x0, y0, x1, y1 })
    }

    pub(crate) fn affine(&mut self) -> Result<Affine, Malformed> {
        Ok(Affine {
            a: self.number()?,
            b: self.number()?,
            c: self.number()?,
            d: self.number()?,
            e: self.number()?,
            f: self.number()?,
        })
    }

    // Nine words: the kind, the four edges, the four radii. A kind leaves unread what it has not, and is a number here as on the line.
    pub(crate) fn clip(&mut self) -> Result<Clip, Malformed> {
        let kind = self.bits()?;
        let Rect { x0, y0, x1, y1 } = self.rect()?;
        let Rect {
            x0: top_left,
            y0: top_right,
            x1: bottom_right,
            y1: bottom_left,
        } = self.rect()?;
        match kind {
            0 => Ok(Clip::None),
            1 => Ok(Clip::Square { x0, y0, x1, y1 }),
            2 => Ok(Clip::Rounded {
                x0,
                y0,
                x1,
                y1,
                top_left,
                top_right,
                bottom_right,
                bottom_left,
            }),
            _ => Err(Malformed),
        }
    }
}

// To the bit, but for a NaN's pattern.
pub(crate) fn exact(x: f64, bits: u64) -> bool
    ensures { result ≡ true → x ≡ from_bits binary64 bits }
{
    if x.is_nan() {
        return is_nan(bits);
    }
    x.to_bits() == bits
}

pub(crate) fn exact_point(p: Point, w: &mut Operands) -> Outcome {
    Ok(exact(p.x, w.bits()?) & exact(p.y, w.bits()?))
}

pub(crate) fn exact_affine(t: Affine, w: &mut Operands) -> Outcome {
    let ab = exact(t.a, w.bits()?) & exact(t.b, w.bits()?);
    let cd = exact(t.c, w.bits()?) & exact(t.d, w.bits()?);
    let ef = exact(t.e, w.bits()?) & exact(t.f, w.bits()?);
    Ok(ab & cd & ef)
}

// As numbers: a zero's sign does not count, and NaN is alike NaN.
pub(crate) fn alike(x: f64, y: f64) -> bool {
    x == y || x.is_nan() && y.is_nan()
}

pub(crate) fn alike_rect(r: Rect, s: Rect) -> bool {
    alike(r.x0, s.x0) && alike(r.y0, s.y0) && alike(r.x1, s.x1) && alike(r.y1, s.y1)
}

// A clip against its nine words.
pub(crate) fn alike_clip(c: Clip, w: &mut Operands) -> Outcome {
    let kind = w.bits()?;
    let edges = w.rect()?;
    let radii = w.rect()?;
    Ok(match c {
        Clip::None => kind == 0,
        Clip::Square { x0, y0, x1, y1 } => kind == 1 && alike_rect(Rect { x0, y0, x1, y1 }, edges),
        Clip::Rounded {
            x0,
            y0,
            x1,
            y1,
            top_left,
            top_right,
            bottom_right,
            bottom_left,
        } => {
            let own = Rect {
                x0: top_left,
                y0: top_right,
                x1: bottom_right,
                y1: bottom_left,
            };
            kind == 2 && alike_rect(Rect { x0, y0, x1, y1 }, edges) && alike_rect(own, radii)
        }
    })
}

// Whether there is a rectangle, and the rectangle, against their words.
pub(crate) fn alike_clip_rect(found: Option<Rect>, w: &mut Operands) -> Outcome {
    let is_there = w.bits()?;
    let rect = w.rect()?;
    Ok(match found {
        None => is_there == 0,
        Some(r) => is_there == 1 && alike_rect(r, rect),
    })
}

// A truth value: 1 or 0.
pub(crate) fn holds(truth: bool, bits: u64) -> bool {
    bits == u64::from(truth)
}
