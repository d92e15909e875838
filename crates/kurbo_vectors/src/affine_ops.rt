// Operations on transforms. Coefficients and mapped points are compared to the bit.
use crate::clip_ops;
use crate::line::{Operands, Outcome, alike_rect, exact_affine, exact_point, holds};
use geometry::affine::Affine;
use geometry::bbox::transform_rect_bbox;
use text_lines::spelling::named;

// A further one is a name and a variant in the same place here, and an arm below.
#[derive(Clone, Copy)]
enum Operation {
    AffineIdentity,
    AffineMul,
    AffineInverse,
    AffineMapPoint,
    AffineEq,
    AffineIsFinite,
    TransformRectBbox,
}

fn operation_of(name: &[u8]) -> Option<Operation> {
    named(
        b"affine_identity affine_mul affine_inverse affine_map_point affine_eq affine_is_finite transform_rect_bbox",
        &[
            Operation::AffineIdentity,
            Operation::AffineMul,
            Operation::AffineInverse,
            Operation::AffineMapPoint,
            Operation::AffineEq,
            Operation::AffineIsFinite,
            Operation::TransformRectBbox,
        ],
        name,
    )
}

pub(crate) fn run(name: &[u8], w: &mut Operands) -> Outcome {
    let Some(operation) = operation_of(name) else {
        return clip_ops::run(name, w);
    };
    Ok(match operation {
        Operation::AffineIdentity => exact_affine(Affine::identity(), w)?,
        Operation::AffineMul => exact_affine(w.affine()? * w.affine()?, w)?,
        Operation::AffineInverse => exact_affine(w.affine()?.inverse(), w)?,
        Operation::AffineMapPoint => exact_point(w.affine()?.map_point(w.point()?), w)?,
        Operation::AffineEq => holds(w.affine()? == w.affine()?, w.bits()?),
        Operation::AffineIsFinite => holds(w.affine()?.is_finite(), w.bits()?),
        Operation::TransformRectBbox => alike_rect(
            transform_rect_bbox(w.affine()?, w.rect()?),
            w.rect()?,
        ),
    })
}
