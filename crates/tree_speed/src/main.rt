// Times the calls of the box tree on a fixed list. Standard output has, for each phase, its name, how many nodes there are, and a sum of the
// answers; standard error has its name, the nodes, how many times the call was made, and the processor time in microseconds. The number of
// rounds is read on standard input. tools/tree_speed has the same list in Rust.
#![tactic(auto)]

mod work; // the nodes, points and rectangles of the list
mod change; // calls that change the tree
mod ask; // requests and a reading

ghost use Rattle.std.specs.Prelude.{◌≤◌};

use std::time::CpuClock;
use text_lines::report;

// `last` is the last of n nodes.
fn all<R: CpuClock>(rt: &R, n: u32, last: u32, rounds: u32)
    requires { rounds ≤ 9999 }
{
    change::inserts(rt, n, rounds);
    change::phases(rt, n, last, rounds * 64);
    ask::phases(rt, n, last, rounds * 64);
}

fn main(rt: HostRuntime) {
    let rounds = report::rounds(&mut rt.stdin());
    all(&rt, 16, 15, rounds);
    all(&rt, 64, 63, rounds);
    all(&rt, 256, 255, rounds);
}
