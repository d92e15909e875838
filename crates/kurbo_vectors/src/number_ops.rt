// Operations on one or two numbers.
use crate::line::{Operands, Outcome, alike, exact, holds};
use crate::rect_ops;
use numbers::{abs, is_finite, max, min};
use text_lines::spelling::named;

// A further one is a name and a variant in the same place here, and an arm below.
#[derive(Clone, Copy)]
enum Operation {
    Min,
    Max,
    Abs,
    IsFinite,
}

fn operation_of(name: &[u8]) -> Option<Operation> {
    named(
        b"min max abs is_finite",
        &[
            Operation::Min,
            Operation::Max,
            Operation::Abs,
            Operation::IsFinite,
        ],
        name,
    )
}

pub(crate) fn run(name: &[u8], w: &mut Operands) -> Outcome {
    let Some(operation) = operation_of(name) else {
        return rect_ops::run(name, w);
    };
    Ok(match operation {
        Operation::Min => alike(min(w.number()?, w.number()?), w.number()?),
        Operation::Max => alike(max(w.number()?, w.number()?), w.number()?),
        Operation::Abs => exact(abs(w.number()?), w.bits()?),
        Operation::IsFinite => holds(is_finite(w.number()?), w.bits()?),
    })
}
