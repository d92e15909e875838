// How the line of a call is answered.
ghost use Rattle.std.specs.Prelude.{◌≡◌, ◌↔◌, [], IsOk};
ghost use Rattle.text_lines.specs.words.Lines as spec;

use crate::print::Out;
use crate::words::Words;
use std::io;
use std::io::Write;

// Why a call has no answer of its own. `R` says why calls are refused.
#[derive(Drop)]
pub enum Fault<R> {
    Malformed,
    Refused(R),
    Unwritten(io::Error),
}

impl<R> From<io::Error> for Fault<R> {
    fn from(error: io::Error) -> Fault<R> {
        Fault::Unwritten(error)
    }
}

// No word is left.
pub fn end<R>(words: &Words) -> Result<(), Fault<R>>
    ensures { IsOk result ↔ (spec.left words.now ≡ []) }
{
    if words.is_empty() {
        Ok(())
    } else {
        Err(Fault::Malformed)
    }
}

// Inner: ends the line of an answer; where there is none, it is `malformed`, or `refused` and the refusal's number.
pub fn end_line<R, F>(out: &mut Out, answered: Result<(), Fault<R>>, number: F) -> io::Result<()>
where
    F: FnOnce(R) -> u32,
    requires { F.IsAlwaysCallable number }
{
    match answered {
        Ok(()) => writeln!(out),
        Err(Fault::Malformed) => writeln!(out, "malformed"),
        Err(Fault::Refused(refusal)) => {
            let number = number(refusal);
            writeln!(out, "refused {number}")
        }
        Err(Fault::Unwritten(error)) => Err(error),
    }
}
