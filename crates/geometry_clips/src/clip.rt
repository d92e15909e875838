// Clips, kurbo's rounded_rect.rs: where the box tree has an Option<RoundedRect>, a clip is none, square, or rounded. The cases carry the
// edges and the radii as separate numbers, a rule of the project.
ghost use Rattle.std.specs.Prelude.{◌≡◌};
ghost use Rattle.geometry_clips.specs.Clips.{inside, shaped, constructed, clip_rect, clip_radii, clip_eq, finite_clip};
ghost use Rattle.geometry_clips.specs.Equality.{clip_laws};

use crate::rounded_rect::winding;
use crate::rounded_rect_radii::RoundedRectRadii;
use geometry::point::Point;
use geometry::rect::Rect;

#[derive(Clone, Copy)]
pub enum Clip {
    None,
    Square {
        x0: f64,
        y0: f64,
        x1: f64,
        y1: f64,
    },
    Rounded {
        x0: f64,
        y0: f64,
        x1: f64,
        y1: f64,
        top_left: f64,
        top_right: f64,
        bottom_right: f64,
        bottom_left: f64,
    },
}

// Square where all radii are 0.
#[tactic(auto, unfolding(crate::specs::Clips::shaped))]
fn shape(r: Rect, q: RoundedRectRadii) -> Clip
    ensures { result ≡ shaped r q }
{
    if q.is_zero() {
        return Clip::Square {
            x0: r.x0,
            y0: r.y0,
            x1: r.x1,
            y1: r.y1,
        };
    }
    Clip::Rounded {
        x0: r.x0,
        y0: r.y0,
        x1: r.x1,
        y1: r.y1,
        top_left: q.top_left,
        top_right: q.top_right,
        bottom_right: q.bottom_right,
        bottom_left: q.bottom_left,
    }
}

impl Clip {
    #[tactic(auto, unfolding(crate::specs::Clips::clip_rect))]
    pub fn rect(self) -> Option<Rect>
        ensures { result ≡ clip_rect self }
    {
        match self {
            Clip::None => None,
            Clip::Square { x0, y0, x1, y1 } => Some(Rect { x0, y0, x1, y1 }),
            Clip::Rounded { x0, y0, x1, y1, .. } => Some(Rect { x0, y0, x1, y1 }),
        }
    }

    // A square clip's radii are 0.
    #[tactic(auto, unfolding(crate::specs::Clips::clip_radii))]
    pub fn radii(self) -> RoundedRectRadii
        ensures { result ≡ clip_radii self }
    {
        match self {
            Clip::Rounded {
                top_left,
                top_right,
                bottom_right,
                bottom_left,
                ..
            } => {
                RoundedRectRadii {
                    top_left, // and clockwise
                    top_right,
                    bottom_right,
                    bottom_left,
                }
            }
            Clip::Square { .. } => RoundedRectRadii::default(),
            Clip::None => RoundedRectRadii::default(),
        }
    }

    // The constructor, RoundedRect::from_rect: insert and the clip setter put every clip through it.
    #[tactic(auto, unfolding(crate::specs::Clips::constructed))]
    pub fn construct(self) -> Clip
        ensures { result ≡ constructed self }
    {
        let Some(given) = self.rect() else {
            return Clip::None;
        };
        let r = given.abs();
        shape(r, self.radii().fit(r))
    }

    // No clip leaves every point inside.
    #[tactic(auto, unfolding(crate::specs::Clips::inside))]
    pub fn contains(self, p: Point) -> bool
        ensures { result ≡ inside self p }
    {
        let Some(r) = self.rect() else {
            return true;
        };
        winding(r, self.radii(), p)
    }

    #[tactic(auto, unfolding(crate::specs::Clips::finite_clip, crate::specs::Rects::finite_clip_rect))]
    pub fn is_finite(self) -> bool
        ensures { result ≡ finite_clip self }
    {
        let rect_is_finite = self.rect().is_none_or(|r| r.is_finite());
        rect_is_finite & self.radii().is_finite()
    }
}

// Equality as numbers. By hand, since a rounded clip with four zero radii equals the square one.
impl PartialEq for Clip {
    ghost eq = { clip_eq };

    ghost laws = { clip_laws };

    #[tactic(auto, unfolding(crate::specs::Clips::clip_eq, crate::specs::Rects::clip_rect_eq, geometry::specs::Rectangle::rect_eq))]
    fn eq(&self, other: &Clip) -> bool {
        (self.rect() == other.rect()) & (self.radii() == other.radii())
    }
}
