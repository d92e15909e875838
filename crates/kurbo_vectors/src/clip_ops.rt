// Operations on clips: constructed first, or as they stand.
use crate::line::{Malformed, Operands, Outcome, alike_clip, alike_clip_rect, holds};
use text_lines::spelling::named;

// A further one is a name and a variant in the same place here, and an arm below.
#[derive(Clone, Copy)]
enum Operation {
    ClipConstruct,
    ClipRect,
    ClipContains,
    ClipIsFinite,
    ClipIsFiniteAsIs,
    ClipEq,
    ClipEqAsIs,
}

fn operation_of(name: &[u8]) -> Option<Operation> {
    named(
        b"clip_construct clip_rect clip_contains clip_is_finite clip_is_finite_as_is clip_eq clip_eq_as_is",
        &[
            Operation::ClipConstruct,
            Operation::ClipRect,
            Operation::ClipContains,
            Operation::ClipIsFinite,
            Operation::ClipIsFiniteAsIs,
            Operation::ClipEq,
            Operation::ClipEqAsIs,
        ],
        name,
    )
}

pub(crate) fn run(name: &[u8], w: &mut Operands) -> Outcome {
    Ok(match operation_of(name).ok_or(Malformed)? {
        Operation::ClipConstruct => alike_clip(w.clip()?.construct(), w)?,
        Operation::ClipRect => alike_clip_rect(w.clip()?.construct().rect(), w)?,
        Operation::ClipContains => holds(w.clip()?.construct().contains(w.point()?), w.bits()?),
        Operation::ClipIsFinite => holds(w.clip()?.construct().is_finite(), w.bits()?),
        Operation::ClipIsFiniteAsIs => holds(w.clip()?.is_finite(), w.bits()?),
        Operation::ClipEq => holds(w.clip()?.construct() == w.clip()?.construct(), w.bits()?),
        Operation::ClipEqAsIs => holds(w.clip()? == w.clip()?, w.bits()?),
    })
}
