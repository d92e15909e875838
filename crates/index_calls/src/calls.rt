// Each call: read from its line, made, and answered. A malformed call leaves the index as it was.
ghost use Rattle.std.specs.Prelude.{◌≤◌};

use crate::show;
use crate::show::Rooms;
use index_types::{Aabb2D, Index, Key, NodeId, Refusal};
use std::io::Write;
use text_lines::calls;
use text_lines::calls::{end, end_line};
use text_lines::print::{Out, Pair};
use text_lines::spelling::named;
use text_lines::words::Words;
use understory_index::{commits, inserts, queries, updates};

type Fault = calls::Fault<Refusal>;

// The index, and how many boxes or entries the room holds that a call is lent.
#[derive(Clone, Copy)]
pub(crate) struct State {
    index: Index,
    room: u32,
}

pub(crate) fn start() -> State {
    State {
        index: index_state::fresh(),
        room: 512,
    }
}

// Answers a line, but for an empty one and a note. A write that fails is passed over.
pub(crate) fn answer(out: &mut Out, line: &[u8], state: &mut State) {
    match line {
        [] | [b'#', ..] => {}
        _ => answer_call(out, line, state),
    }
}

fn answer_call(out: &mut Out, line: &[u8], state: &mut State) {
    let mut words = Words::new(line);
    let name = words.next().unwrap_or(b"");
    let answered = call(out, name, &mut words, state);
    let _ = end_line(out, answered, show::number);
}

// A further call is a name and a variant in the same place here, and an arm below.
#[derive(Clone, Copy)]
enum Verb {
    New,
    Clear,
    Room,
    Insert,
    Update,
    Remove,
    Commit,
    QueryPoint,
    QueryRect,
}

fn verb_of(name: &[u8]) -> Option<Verb> {
    named(
        b"new clear room insert update remove commit query_point query_rect",
        &[
            Verb::New,
            Verb::Clear,
            Verb::Room,
            Verb::Insert,
            Verb::Update,
            Verb::Remove,
            Verb::Commit,
            Verb::QueryPoint,
            Verb::QueryRect,
        ],
        name,
    )
}

fn call(out: &mut Out, name: &[u8], words: &mut Words, state: &mut State) -> Result<(), Fault> {
    match verb_of(name).ok_or(Fault::Malformed)? {
        Verb::New => new(out, words, &mut state.index),
        Verb::Clear => clear(out, words, &mut state.index),
        Verb::Room => room(out, words, &mut state.room),
        Verb::Insert => insert(out, words, &mut state.index),
        Verb::Update => update(out, words, &mut state.index),
        Verb::Remove => remove(out, words, &mut state.index),
        Verb::Commit => commit(out, words, &mut state.index, state.room),
        Verb::QueryPoint => query_point(out, words, &state.index, state.room),
        Verb::QueryRect => query_rect(out, words, &state.index, state.room),
    }
}

// ---- what the words stand for

fn number(words: &mut Words) -> Result<f64, Fault> {
    words.number().ok_or(Fault::Malformed)
}

fn aabb(words: &mut Words) -> Result<Aabb2D, Fault> {
    let [min_x, min_y, max_x, max_y] = words.four().ok_or(Fault::Malformed)?;
    Ok(Aabb2D {
        min_x,
        min_y,
        max_x,
        max_y,
    })
}

fn key(words: &mut Words) -> Result<Key, Fault> {
    let (slot, generation) = words.pair().ok_or(Fault::Malformed)?;
    Ok(Key(slot, generation))
}

fn payload(words: &mut Words) -> Result<NodeId, Fault> {
    let (index, generation) = words.pair().ok_or(Fault::Malformed)?;
    Ok(NodeId(index, generation))
}

// How many numbers of room for n boxes or entries a call is lent; from 512 on all that there is.
fn lent(n: u32) -> usize
    ensures { result ≤ 2048 }
{
    n.min(512) as usize * 4
}

// ---- the calls

// A call without a value.
fn done(out: &mut Out, answer: Result<(), Refusal>) -> Result<(), Fault> {
    answer.map_err(Fault::Refused)?;
    write!(out, "ok")?;
    Ok(())
}

fn new(out: &mut Out, words: &mut Words, index: &mut Index) -> Result<(), Fault> {
    end(words)?;
    *index = index_state::fresh();
    done(out, Ok(()))
}

fn clear(out: &mut Out, words: &mut Words, index: &mut Index) -> Result<(), Fault> {
    end(words)?;
    done(out, inserts::clear(index))
}

// The room from a line on: it stays through `new` and `clear`.
fn room(out: &mut Out, words: &mut Words, room: &mut u32) -> Result<(), Fault> {
    let n = words.whole().ok_or(Fault::Malformed)?;
    end(words)?;
    *room = n;
    done(out, Ok(()))
}

fn insert(out: &mut Out, words: &mut Words, index: &mut Index) -> Result<(), Fault> {
    let aabb = aabb(words)?;
    let payload = payload(words)?;
    end(words)?;
    let Key(slot, generation) = inserts::insert(index, aabb, payload).map_err(Fault::Refused)?;
    write!(out, "{}", Pair(slot, generation))?;
    Ok(())
}

fn update(out: &mut Out, words: &mut Words, index: &mut Index) -> Result<(), Fault> {
    let key = key(words)?;
    let aabb = aabb(words)?;
    end(words)?;
    done(out, updates::update(index, key, aabb))
}

fn remove(out: &mut Out, words: &mut Words, index: &mut Index) -> Result<(), Fault> {
    let key = key(words)?;
    end(words)?;
    done(out, updates::remove(index, key))
}

fn commit(out: &mut Out, words: &mut Words, index: &mut Index, room: u32) -> Result<(), Fault> {
    end(words)?;
    let mut rooms = Rooms {
        added: [0.0; 2048],
        removed: [0.0; 2048],
        old: [0.0; 2048],
        new: [0.0; 2048],
    };
    let k = lent(room);
    let damage = commits::commit(
        index,
        &mut rooms.added[..k],
        &mut rooms.removed[..k],
        &mut rooms.old[..k],
        &mut rooms.new[..k],
    )
    .map_err(Fault::Refused)?;
    show::damage(out, &rooms, damage)?;
    Ok(())
}

fn query_point(out: &mut Out, words: &mut Words, index: &Index, room: u32) -> Result<(), Fault> {
    let x = number(words)?;
    let y = number(words)?;
    end(words)?;
    let mut entries = [0; 2048];
    let count = queries::query_point(index, x, y, &mut entries[..lent(room)]).map_err(
        Fault::Refused,
    )?;
    show::entries(out, &entries, count)?;
    Ok(())
}

fn query_rect(out: &mut Out, words: &mut Words, index: &Index, room: u32) -> Result<(), Fault> {
    let rect = aabb(words)?;
    end(words)?;
    let mut entries = [0; 2048];
    let count = queries::query_rect(index, rect, &mut entries[..lent(room)]).map_err(
        Fault::Refused,
    )?;
    show::entries(out, &entries, count)?;
    Ok(())
}
