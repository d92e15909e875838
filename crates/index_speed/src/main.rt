// Times the calls of the index on a fixed list. Standard output has, for each phase, its name, how many units of work a round has, and a sum of
// the answers; standard error has its name and the processor time of all rounds, in microseconds. The number of rounds is read on standard
// input: decimal digits, at most four; nothing stands for 1. tools/index_speed has the same list in Rust.
#![tactic(auto)]

mod work; // the boxes, points and rectangles of the list
mod fill; // inserts and commits of them
mod change; // updates and commits of them
mod ask; // queries

use text_lines::report;

fn main(rt: HostRuntime) {
    let rounds = report::rounds(&mut rt.stdin());
    report::total(b"rounds", 1, u64::from(rounds));
    fill::phases(&rt, rounds);
    change::phases(&rt, rounds);
    ask::phases(&rt, rounds);
    change::own_phase(&rt, rounds);
    ask::own_phase(&rt, rounds);
}
