// Numbers as answers show them.
ghost use Rattle.std.specs.Prelude.{◌≡◌, ◌*◌, ◌-◌, ◌++◌, length, min, take};
ghost use Rattle.arrayvec.specs.ArrayVec.{array_vec_len};

use crate::spelling;
use arrayvec::ArrayVec;
use std::io::Write;
use std::rt::Stdout;
use std::{fmt, io};

// How much is read or written at once.
pub const BLOCK: usize = 24_576;

// Where answers gather before they are written, without a heap. A write that fails is passed over, and what had gathered is left out.
#[derive(Drop)]
pub struct Out {
    gathered: ArrayVec<u8, BLOCK>,
    stdout: Stdout,
}

// Holds what fits of a part behind what is held, and answers how many bytes that is.
pub(crate) fn hold<const N: usize>(held: &mut ArrayVec<u8, N>, part: &[u8]) -> usize
    ensures count { result ≡ min (length part.now) (N - array_vec_len held.old) }
    ensures held { held.new.items ≡ held.old.items ++ take result part.now }
{
    let n = part.len().min(held.remaining_capacity());
    let _ = held.try_extend_from_slice(&part[..n]);
    n
}

impl Out {
    // Nothing has gathered.
    pub(crate) fn new(stdout: Stdout) -> Out {
        Out {
            gathered: ArrayVec::new(),
            stdout,
        }
    }
}

impl Write for Out {
    fn write(&mut self, part: &[u8]) -> io::Result<usize> {
        if self.gathered.is_full() {
            self.flush()?;
        }
        Ok(hold(&mut self.gathered, part))
    }

    fn flush(&mut self) -> io::Result<()> {
        let _ = self.stdout.write_all(&self.gathered);
        self.gathered.clear();
        Ok(())
    }
}

// `nan`, `0` for either zero, or the 16 hexadecimal digits of the bits.
#[derive(Clone, Copy)]
pub struct Number(pub f64);

impl fmt::Display for Number {
    fn fmt<W: fmt::Write>(&self, f: &mut fmt::Formatter<W>) -> fmt::Result {
        let x = self.0;
        if x.is_nan() {
            write!(f, "nan")
        } else if x == 0.0 {
            write!(f, "0")
        } else {
            for digit in spelling::digits(x.to_bits()) {
                f.write_char(char::from(digit))?;
            }
            Ok(())
        }
    }
}

// The same, and `-0` for the negative zero, whose reciprocal is below 0.
#[derive(Clone, Copy)]
pub struct Coefficient(pub f64);

impl fmt::Display for Coefficient {
    fn fmt<W: fmt::Write>(&self, f: &mut fmt::Formatter<W>) -> fmt::Result {
        let x = self.0;
        if x == 0.0 && 1.0 / x < 0.0 {
            write!(f, "-")?;
        }
        Number(x).fmt(f)
    }
}

// Four numbers, one space apart.
#[derive(Clone, Copy)]
pub struct Four(pub [f64; 4]);

impl fmt::Display for Four {
    fn fmt<W: fmt::Write>(&self, f: &mut fmt::Formatter<W>) -> fmt::Result {
        let [a, b, c, d] = self.0.map(Number);
        write!(f, "{a} {b} {c} {d}")
    }
}

// `index:generation`
#[derive(Clone, Copy)]
pub struct Pair(pub u32, pub u32);

impl fmt::Display for Pair {
    fn fmt<W: fmt::Write>(&self, f: &mut fmt::Formatter<W>) -> fmt::Result {
        let Pair(index, generation) = *self;
        write!(f, "{index}:{generation}")
    }
}

// ---- what stands in front of lent room

// The first `count` rows of so many values, or all that there are.
pub fn front<T>(room: &[T], count: usize, width: usize) -> &[T]
    ensures { result.now ≡ take (min (length room.now) (count * width)) room.now }
{
    &room[..room.len().min(count.saturating_mul(width))]
}

// Inner: each number after a space.
pub fn numbers(out: &mut Out, numbers: &[f64]) -> io::Result<()> {
    for x in numbers {
        write!(out, " {}", Number(*x))?;
    }
    Ok(())
}

// Inner: each pair after a space.
pub fn pairs(out: &mut Out, numbers: &[u32]) -> io::Result<()> {
    for pair in numbers.chunks_exact(2) {
        if let [index, generation] = *pair {
            write!(out, " {}", Pair(index, generation))?;
        }
    }
    Ok(())
}
