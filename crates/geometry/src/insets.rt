// Insets, kurbo's insets.rs: how far each edge is moved outwards. The box tree's hit slop is one.
ghost use Rattle.std.specs.Prelude.{◌≡◌};
ghost use Rattle.geometry.specs.Parts.{zero_insets, finite_insets};

use numbers::is_finite;

#[derive(Clone, Copy, PartialEq, Default)]
pub struct Insets {
    pub x0: f64,
    pub y0: f64,
    pub x1: f64,
    pub y1: f64,
}

impl Insets {
    // All insets equal 0 as numbers.
    #[tactic(auto, unfolding(crate::specs::Parts::zero_insets))]
    pub fn is_zero(self) -> bool
        ensures { result ≡ zero_insets self }
    {
        self == Insets::default()
    }

    #[tactic(auto, unfolding(crate::specs::Parts::finite_insets))]
    pub fn is_finite(self) -> bool
        ensures { result ≡ finite_insets self }
    {
        is_finite(self.x0) & is_finite(self.y0) & (is_finite(self.x1) & is_finite(self.y1))
    }
}
