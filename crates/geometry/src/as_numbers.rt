// Equality as numbers, which a derive gives: −0 equals +0, and a NaN equals nothing.
ghost use Rattle.geometry.specs.Rectangle.{rect_eq, insets_eq};
ghost use Rattle.geometry.specs.Transform.{affine_eq};
ghost use Rattle.geometry.specs.Equality.{rect_chain, insets_chain, affine_chain};

use crate::affine::Affine;
use crate::insets::Insets;
use crate::rect::Rect;
pub use numbers::as_numbers::EqualAsNumbers;

impl EqualAsNumbers for Rect {
    ghost equality = { rect_eq };

    ghost is_equality = { rect_chain };
}

impl EqualAsNumbers for Insets {
    ghost equality = { insets_eq };

    ghost is_equality = { insets_chain };
}

impl EqualAsNumbers for Affine {
    ghost equality = { affine_eq };

    ghost is_equality = { affine_chain };
}
