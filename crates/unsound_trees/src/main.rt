// Trees made by hand, and what every public call answers on each. A line of standard input is a call, as plan_calls has them; or `chain N`, a
// committed tree made by calls, N nodes each below the one before; or `set TABLE PLACE NUMBER`, one number of the tree changed by hand; or
// `every ..`, each public call made on the tree.
#![tactic(auto)]

mod calls; // every call
mod same; // whether two trees are the same
mod set; // a change by hand

use crate::calls::Tally;
use geometry::rect::Rect;
use std::io;
use std::io::Write;
use text_calls::State;
use text_lines::input;
use text_lines::print::Out;
use text_lines::spelling::named;
use text_lines::words::Words;
use tree_state::Tree;
use tree_types::LocalNode;

// ---- a chain

fn ten() -> LocalNode {
    let mut local = LocalNode::default();
    local.local_bounds = Rect {
        x0: 0.0,
        y0: 0.0,
        x1: 10.0,
        y1: 10.0,
    };
    local
}

fn chain(n: u32) -> Tree {
    let mut tree = tree_state::fresh();
    let mut parent = None;
    for _ in 0..n {
        parent = tree_insert::insert(&mut tree, parent, ten()).ok();
    }
    let _ = tree_commit::commit(&mut tree, &mut [0.0; 2048]);
    tree
}

// ---- the lines

// Nothing where the words say no such thing, and so below.
fn chain_line(words: &mut Words, tree: &mut Tree) -> Option<()> {
    let n = words.whole()?;
    if !words.is_empty() {
        return None;
    }
    *tree = chain(n);
    Some(())
}

// A line that has no answer unless it is malformed.
fn quiet(out: &mut Out, done: Option<()>) -> io::Result<()> {
    match done {
        Some(()) => Ok(()),
        None => writeln!(out, "malformed"),
    }
}

// The line itself, and the counts.
fn every_line(out: &mut Out, line: &[u8], tree: &Tree) -> io::Result<()> {
    let Tally {
        calls,
        refused,
        changed,
    } = calls::every(tree);
    out.write_all(line)?;
    writeln!(
        out,
        ": {refused} of {calls} refused 1, {changed} with a change"
    )
}

// `room` holds for its own line alone.
fn call_line(out: &mut Out, line: &[u8], state: &mut State) -> io::Result<()> {
    state.ids = 256;
    state.rects = 512;
    text_calls::answer(out, line, state);
    Ok(())
}

// The lines that are no call.
#[derive(Clone, Copy)]
enum Line {
    Set,
    Chain,
    Every,
}

fn line_of(name: &[u8]) -> Option<Line> {
    named(
        b"set chain every",
        &[Line::Set, Line::Chain, Line::Every],
        name,
    )
}

fn answer_line(out: &mut Out, line: &[u8], state: &mut State) -> io::Result<()> {
    let mut words = Words::new(line);
    match line_of(words.next().unwrap_or(b"")) {
        Some(Line::Set) => quiet(out, set::change(&mut words, &mut state.tree)),
        Some(Line::Chain) => quiet(out, chain_line(&mut words, &mut state.tree)),
        Some(Line::Every) => every_line(out, line, &state.tree),
        None => call_line(out, line, state),
    }
}

// A write that fails is passed over.
fn answer(out: &mut Out, line: &[u8], state: &mut State) {
    let _ = answer_line(out, line, state);
}

// A read that fails ends the list, as the end of the input does.
fn main(rt: HostRuntime) {
    let mut state = text_calls::start();
    let _ = input::answer_lines(rt.stdin(), rt.stdout(), |out, line| {
        answer(out, line, &mut state)
    });
}
