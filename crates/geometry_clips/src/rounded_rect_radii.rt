// The four radii of a rounded rectangle, kurbo's rounded_rect_radii.rs. Every function takes every f64, NaN and
// infinities included.
ghost use Rattle.std.specs.Prelude.{◌≡◌};
ghost use Rattle.std.specs.Float.Ieee.{eq};
ghost use Rattle.std.specs.Float.Ieee.Scale.{finite};
ghost use Rattle.numbers.specs.Rounded.{zero};
ghost use Rattle.geometry_clips.specs.rounded_rect_radii.Radii as spec;
ghost use Rattle.geometry_clips.specs.Clips.{radii_eq};
ghost use Rattle.geometry_clips.specs.Equality.{radii_chain};

use geometry::rect::Rect;
use numbers::as_numbers::EqualAsNumbers;
use numbers::{abs, is_finite, min};

#[derive(Clone, Copy, PartialEq, Default)]
pub struct RoundedRectRadii {
    pub top_left: f64,
    pub top_right: f64,
    pub bottom_right: f64,
    pub bottom_left: f64,
}

impl EqualAsNumbers for RoundedRectRadii {
    ghost equality = { radii_eq };

    ghost is_equality = { radii_chain };
}

impl RoundedRectRadii {
    pub fn new(top_left: f64, top_right: f64, bottom_right: f64, bottom_left: f64) -> Self
        ensures { result ≡ spec.radii top_left top_right bottom_right bottom_left }
    {
        Self {
            top_left,
            top_right,
            bottom_right,
            bottom_left,
        }
    }

    // Each radius the minimum of its absolute value and half the shorter side of `rect`, whose corners the constructor has ordered.
    #[tactic(auto, using(numbers::proofs::Numbers::literals), unfolding(crate::specs::rounded_rect_radii::Radii::fitted))]
    pub fn fit(self, rect: Rect) -> Self
        ensures { result ≡ spec.fitted rect self }
    {
        let cap = min(rect.width(), rect.height()) / 2.0;
        Self {
            top_left: min(abs(self.top_left), cap),
            top_right: min(abs(self.top_right), cap),
            bottom_right: min(abs(self.bottom_right), cap),
            bottom_left: min(abs(self.bottom_left), cap),
        }
    }

    // The radius of the quadrant that the offset (dx, dy) from the centre lies in, and 0 at a NaN.
    #[tactic(auto, unfolding(crate::specs::rounded_rect_radii::Radii::quadrant))]
    pub fn quadrant(self, dx: f64, dy: f64) -> f64
        ensures { result ≡ spec.quadrant self dx dy }
    {
        if dx.is_nan() | dy.is_nan() {
            return 0.0;
        }
        match (dx < 0.0, dy < 0.0) {
            (true, true) => self.top_left,
            (false, true) => self.top_right,
            (false, false) => self.bottom_right,
            (true, false) => self.bottom_left,
        }
    }

    // All four equal 0 as numbers.
    pub fn is_zero(self) -> bool
        ensures { result ≡ spec.all (λ x. eq x zero) self }
    {
        self == RoundedRectRadii::default()
    }

    pub fn is_finite(self) -> bool
        ensures { result ≡ spec.all finite self }
    {
        is_finite(self.top_left)
            & (is_finite(self.top_right)
                & (is_finite(self.bottom_right) & is_finite(self.bottom_left)))
    }
}
