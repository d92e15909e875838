// The whole numbers of a sheet's lines, as the tree takes them.
ghost use Rattle.std.specs.Prelude.{◌≡◌, ◌≤◌, pos, unsigned_abs};
ghost use Rattle.std.specs.Int.Signed.{mag};
ghost use Rattle.sheet_calls.specs.Calls as call;

// Inner: a whole number as an f64.
pub(crate) fn real(x: i64) -> f64
    ensures { result ≡ call.real x }
{
    std::num::nearest_i64_to_f64(x)
}

// Inner: a level. It is in range, so that a TryFrom would only add an error that cannot come.
pub(crate) fn level(x: i64) -> i32
    requires { mag x ≤ 2147483647 }
    ensures { result ≡ x }
{
    x as i32
}

// Inner: a flag byte, or an orientation. It is in range, so that a TryFrom would only add an error that cannot come.
pub(crate) fn small(x: i64) -> u8
    requires { (x ≡ pos (unsigned_abs x)) × (unsigned_abs x ≤ 7) }
    ensures { result ≡ unsigned_abs x }
{
    x as u8
}
