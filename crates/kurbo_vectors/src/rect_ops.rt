// Operations on rectangles and insets.
use crate::affine_ops;
use crate::line::{Operands, Outcome, alike_rect, exact, holds};
use text_lines::spelling::named;

// A further one is a name and a variant in the same place here, and an arm below.
#[derive(Clone, Copy)]
enum Operation {
    RectAbs,
    RectIntersect,
    RectUnion,
    RectAdd,
    RectWidth,
    RectHeight,
    RectHasArea,
    RectIsFinite,
    RectContains,
    RectEq,
    InsetsEq,
    InsetsIsZero,
    InsetsIsFinite,
}

fn operation_of(name: &[u8]) -> Option<Operation> {
    named(
        b"rect_abs rect_intersect rect_union rect_add rect_width rect_height rect_has_area rect_is_finite rect_contains \
          rect_eq insets_eq insets_is_zero insets_is_finite",
        &[
            Operation::RectAbs,
            Operation::RectIntersect,
            Operation::RectUnion,
            Operation::RectAdd,
            Operation::RectWidth,
            Operation::RectHeight,
            Operation::RectHasArea,
            Operation::RectIsFinite,
            Operation::RectContains,
            Operation::RectEq,
            Operation::InsetsEq,
            Operation::InsetsIsZero,
            Operation::InsetsIsFinite,
        ],
        name,
    )
}

pub(crate) fn run(name: &[u8], w: &mut Operands) -> Outcome {
    let Some(operation) = operation_of(name) else {
        return affine_ops::run(name, w);
    };
    Ok(match operation {
        Operation::RectAbs => alike_rect(w.rect()?.abs(), w.rect()?),
        Operation::RectIntersect => alike_rect(w.rect()?.intersect(w.rect()?), w.rect()?),
        Operation::RectUnion => alike_rect(w.rect()?.union(w.rect()?), w.rect()?),
        Operation::RectAdd => alike_rect(w.rect()? + w.insets()?, w.rect()?),
        Operation::RectWidth => exact(w.rect()?.width(), w.bits()?),
        Operation::RectHeight => exact(w.rect()?.height(), w.bits()?),
        Operation::RectHasArea => holds(w.rect()?.has_area(), w.bits()?),
        Operation::RectIsFinite => holds(w.rect()?.is_finite(), w.bits()?),
        Operation::RectContains => holds(w.rect()?.contains(w.point()?), w.bits()?),
        Operation::RectEq => holds(w.rect()? == w.rect()?, w.bits()?),
        Operation::InsetsEq => holds(w.insets()? == w.insets()?, w.bits()?),
        Operation::InsetsIsZero => holds(w.insets()?.is_zero(), w.bits()?),
        Operation::InsetsIsFinite => holds(w.insets()?.is_finite(), w.bits()?),
    })
}
