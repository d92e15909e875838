// Orientations in whole numbers, by steps.
ghost use Rattle.std.specs.Prelude.{◌≡◌};
ghost use Rattle.sheet_calls.specs.Calls as call;
ghost use Rattle.sheet_calls.specs.Good.{Small};
ghost use Rattle.sheet_records.specs.orientations.Turns as spec;

// (x, y) goes to (a·x + c·y, b·x + d·y), in whole numbers.
#[derive(Clone, Copy)]
pub struct Linear {
    pub a: i64,
    pub b: i64,
    pub c: i64,
    pub d: i64,
}

// From 4 up, x becomes −x first.
fn start(k: u64) -> Linear
    ensures { spec.linear result ≡ spec.start_of k }
{
    if k < 4 {
        Linear {
            a: 1,
            b: 0,
            c: 0,
            d: 1,
        }
    } else {
        Linear {
            a: -1,
            b: 0,
            c: 0,
            d: 1,
        }
    }
}

// (x, y) becomes (−y, x).
fn turned(m: Linear) -> Linear
    requires { Small (spec.linear m) }
    ensures { spec.linear result ≡ call.turned (spec.linear m) }
{
    Linear {
        a: -m.b,
        b: m.a,
        c: -m.d,
        d: m.c,
    }
}

// Inner: orientation k: k mod 4 turns, mirrored first from 4 up.
pub(crate) fn orientation(k: u64) -> Linear
    ensures { spec.linear result ≡ call.orientation k }
{
    let mut m = start(k);
    for _ in 0..k % 4 {
        m = turned(m);
    }
    m
}
