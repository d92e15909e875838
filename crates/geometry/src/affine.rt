// Transforms, kurbo's affine.rs: (x, y) goes to (a·x + c·y + e, b·x + d·y + f).
ghost use Rattle.std.specs.Prelude.{◌≡◌};
ghost use Rattle.geometry.specs.Transform as spec;

use crate::point::Point;
use numbers::is_finite;
use std::ops::Mul;

#[derive(Clone, Copy, PartialEq)]
pub struct Affine {
    pub a: f64,
    pub b: f64,
    pub c: f64,
    pub d: f64,
    pub e: f64,
    pub f: f64,
}

// `other` is applied first.
impl Mul for Affine {
    type Output = Affine;

    ghost mul_gives = { λ s t r. r ≡ spec.product s t };

    #[tactic(auto, unfolding(crate::specs::Transform::product))]
    fn mul(self, other: Affine) -> Affine
        ensures { result ≡ spec.product self other }
    {
        Affine {
            a: self.a * other.a + self.c * other.b,
            b: self.b * other.a + self.d * other.b,
            c: self.a * other.c + self.c * other.d,
            d: self.b * other.c + self.d * other.d,
            e: self.a * other.e + self.c * other.f + self.e,
            f: self.b * other.e + self.d * other.f + self.f,
        }
    }
}

impl Affine {
    // Affine::IDENTITY.
    pub fn identity() -> Affine
        ensures { result ≡ spec.identity }
    {
        Affine {
            a: 1.0,
            b: 0.0,
            c: 0.0,
            d: 1.0,
            e: 0.0,
            f: 0.0,
        }
    }

    // A zero determinant is not refused.
    #[tactic(auto, unfolding(crate::specs::Transform::inverse))]
    pub fn inverse(self) -> Affine
        ensures { result ≡ spec.inverse self }
    {
        let inv_det = 1.0 / (self.a * self.d - self.b * self.c);
        Affine {
            a: inv_det * self.d,
            b: -inv_det * self.b,
            c: -inv_det * self.c,
            d: inv_det * self.a,
            e: inv_det * (self.c * self.f - self.d * self.e),
            f: inv_det * (self.b * self.e - self.a * self.f),
        }
    }

    // Affine * Point.
    #[tactic(auto, unfolding(crate::specs::Transform::mapped))]
    pub fn map_point(self, p: Point) -> Point
        ensures { result ≡ spec.mapped self p }
    {
        Point {
            x: self.a * p.x + self.c * p.y + self.e,
            y: self.b * p.x + self.d * p.y + self.f,
        }
    }

    #[tactic(auto, unfolding(crate::specs::Transform::finite_affine))]
    pub fn is_finite(self) -> bool
        ensures { result ≡ spec.finite_affine self }
    {
        is_finite(self.a)
            & is_finite(self.b)
            & (is_finite(self.c) & is_finite(self.d))
            & (is_finite(self.e) & is_finite(self.f))
    }
}
