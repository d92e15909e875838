// f64: minimum, maximum, absolute value and finiteness, as kurbo takes them from the standard library of Rust.
#![tactic(auto)]

pub mod as_numbers; // what == answers on a type of numbers

ghost use Rattle.std.specs.Prelude.{◌≡◌};
ghost use Rattle.std.specs.Float.Ieee.Scale.{finite};
ghost use Rattle.numbers.specs.Number as spec;

// f64::min: one NaN gives the other operand, equal operands give the first.
// By hand, since the library's leaves open which of two equal zeros it gives.
#[tactic(auto, using(crate::proofs::Numbers::min_other, crate::proofs::Numbers::min_second, crate::proofs::Numbers::min_first))]
pub fn min(x: f64, y: f64) -> f64
    ensures { result ≡ spec.minimum x y }
{
    if x.is_nan() {
        return y;
    }
    if y < x { y } else { x }
}

// f64::max, with the same two rules, and by hand for the same reason.
#[tactic(auto, using(crate::proofs::Numbers::max_other, crate::proofs::Numbers::max_second, crate::proofs::Numbers::max_first))]
pub fn max(x: f64, y: f64) -> f64
    ensures { result ≡ spec.maximum x y }
{
    if x.is_nan() {
        return y; // not x, a NaN
    }
    if x < y { y } else { x }
}

// f64::abs, in the words of specs/: −0 becomes +0.
#[tactic(auto, using(crate::proofs::Numbers::library_magnitude))]
pub fn abs(x: f64) -> f64
    ensures { result ≡ spec.magnitude x }
{
    x.abs()
}

// f64::is_finite, in the words of the contracts: neither a NaN nor an infinity.
#[tactic(auto, using(crate::proofs::Numbers::library_finite))]
pub fn is_finite(x: f64) -> bool
    ensures { result ≡ finite x }
{
    x.is_finite()
}

// Equality to the bit: a zero's sign counts, and a NaN is the same as a NaN.
// By hand, since f64's == is equality as numbers, and its bits may be read only where it is no NaN.
#[tactic(auto, using(crate::proofs::Bitwise::same_nan, crate::proofs::Bitwise::same_other, crate::proofs::Bitwise::same_bits))]
pub fn same(x: f64, y: f64) -> bool
    ensures { result ≡ spec.same x y }
{
    if x.is_nan() {
        return y.is_nan();
    }
    if y.is_nan() {
        return false;
    }
    x.to_bits() == y.to_bits()
}
