// Rectangles, kurbo's rect.rs.
ghost use Rattle.std.specs.Prelude.{◌≡◌};
ghost use Rattle.geometry.specs.Rectangle as spec;

use crate::insets::Insets;
use crate::point::Point;
use numbers::{is_finite, max, min};
use std::ops::Add;

#[derive(Clone, Copy, PartialEq)]
pub struct Rect {
    pub x0: f64,
    pub y0: f64,
    pub x1: f64,
    pub y1: f64,
}

// The corners are put in order first.
impl Add<Insets> for Rect {
    type Output = Rect;

    ghost add_gives = { λ r i s. s ≡ spec.plus_insets r i };

    #[tactic(auto, unfolding(crate::specs::Rectangle::plus_insets))]
    fn add(self, insets: Insets) -> Rect
        ensures { result ≡ spec.plus_insets self insets }
    {
        let r = self.abs();
        Rect {
            x0: r.x0 - insets.x0,
            y0: r.y0 - insets.y0,
            x1: r.x1 + insets.x1,
            y1: r.y1 + insets.y1,
        }
    }
}

impl Rect {
    pub fn new(x0: f64, y0: f64, x1: f64, y1: f64) -> Self
        ensures { result ≡ spec.rect x0 y0 x1 y1 }
    {
        Self { x0, y0, x1, y1 }
    }

    pub fn width(self) -> f64
        ensures { result ≡ spec.width self }
    {
        self.x1 - self.x0
    }

    pub fn height(self) -> f64
        ensures { result ≡ spec.height self }
    {
        self.y1 - self.y0
    }

    // Corners put in order.
    #[tactic(auto, unfolding(crate::specs::Rectangle::ordered))]
    pub fn abs(self) -> Rect
        ensures { result ≡ spec.ordered self }
    {
        Rect {
            x0: min(self.x0, self.x1),
            y0: min(self.y0, self.y1),
            x1: max(self.x0, self.x1),
            y1: max(self.y0, self.y1),
        }
    }

    #[tactic(auto, unfolding(crate::specs::Rectangle::intersection))]
    pub fn intersect(self, other: Rect) -> Rect
        ensures { result ≡ spec.intersection self other }
    {
        let x0 = max(self.x0, other.x0);
        let y0 = max(self.y0, other.y0);
        let x1 = min(self.x1, other.x1);
        let y1 = min(self.y1, other.y1);
        Rect {
            x0,
            y0,
            x1: max(x1, x0),
            y1: max(y1, y0),
        }
    }

    #[tactic(auto, unfolding(crate::specs::Rectangle::union))]
    pub fn union(self, other: Rect) -> Rect
        ensures { result ≡ spec.union self other }
    {
        Rect {
            x0: min(self.x0, other.x0),
            y0: min(self.y0, other.y0),
            x1: max(self.x1, other.x1),
            y1: max(self.y1, other.y1),
        }
    }

    // Low edges in, high edges out.
    #[tactic(auto, unfolding(crate::specs::Rectangle::contains))]
    pub fn contains(self, point: Point) -> bool
        ensures { result ≡ spec.contains self point }
    {
        (point.x >= self.x0) & (point.x < self.x1) & ((point.y >= self.y0) & (point.y < self.y1))
    }

    // The area test of the box tree's damage.
    #[tactic(auto, unfolding(crate::specs::Rectangle::has_area))]
    pub fn has_area(self) -> bool
        ensures { result ≡ spec.has_area self }
    {
        (self.width() > 0.0) & (self.height() > 0.0)
    }

    #[tactic(auto, unfolding(crate::specs::Rectangle::finite_rect))]
    pub fn is_finite(self) -> bool
        ensures { result ≡ spec.finite_rect self }
    {
        is_finite(self.x0) & is_finite(self.y0) & (is_finite(self.x1) & is_finite(self.y1))
    }
}
