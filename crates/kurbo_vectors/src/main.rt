// Runs vectors of kurbo's geometry, on standard input, through the crates of the geometry (numbers to clips), and writes which differ.
// docs/VECTORS.md has the format. A line that is no vector is malformed, counts as one that differs, and stops nothing.
#![tactic(auto)]

mod line; // the words of a line, and numbers against words
mod affine_ops;
mod clip_ops;
mod number_ops;
mod rect_ops;

use crate::line::{Malformed, Operands, Outcome};
use std::io;
use std::io::Write;
use text_lines::input;
use text_lines::print::Out;
use text_lines::spelling::within;
use text_lines::words::Words;

// How many lines there were, and how many of them differ.
#[derive(Clone, Copy)]
struct Tally {
    lines: u64,
    differ: u64,
}

// A name, then the words of its operation. A name that none of them has is malformed.
fn outcome(name: &[u8], words: Words) -> Outcome {
    let mut operands = Operands { words };
    let is_same = number_ops::run(name, &mut operands)?;
    if operands.words.is_empty() {
        Ok(is_same)
    } else {
        Err(Malformed)
    }
}

// Writes `line 7 differs: rect_union`. No name is longer than 24 bytes.
fn report(out: &mut Out, number: u64, what: &str, name: &[u8]) -> io::Result<()> {
    write!(out, "line {number} {what}: ")?;
    out.write_all(&name[..within(24, name)])?;
    writeln!(out)
}

impl Tally {
    // A line, which is counted from 1. A write that fails is passed over, here and below.
    fn judge(&mut self, out: &mut Out, line: &[u8]) {
        let mut words = Words::new(line);
        let name = words.next().unwrap_or(b"");
        self.lines = self.lines.wrapping_add(1);
        let what = match outcome(name, words) {
            Ok(true) => return,
            Ok(false) => "differs",
            Err(Malformed) => "is malformed",
        };
        self.differ = self.differ.wrapping_add(1);
        let _ = report(out, self.lines, what, name);
    }
}

// A read that failed counts as one that differs.
fn main(rt: HostRuntime) {
    let mut tally = Tally {
        lines: 0,
        differ: 0,
    };
    let is_read = input::answer_lines(rt.stdin(), rt.stdout(), |out, line| {
        tally.judge(out, line)
    });
    if !is_read {
        tally.differ = tally.differ.wrapping_add(1);
        let _ = println!(rt; "the input cannot be read");
    }
    let Tally { lines, differ } = tally;
    let _ = println!(rt; "{lines} vectors, {differ} differ");
}
