// Answers a call list of the index alone, read on standard input, from the proved index: one answer for each call, a line each.
// An empty line and a line that begins with `#` have no answer. A malformed line is answered `malformed` and changes nothing.
#![tactic(auto)]

mod show; // the parts of an answer
mod calls; // each call

use text_lines::input;

// A read that fails ends the list, as the end of the input does.
fn main(rt: HostRuntime) {
    let mut state = calls::start();
    let _ = input::answer_lines(rt.stdin(), rt.stdout(), |out, line| {
        calls::answer(out, line, &mut state)
    });
}
