// Call lists of the box tree: each line is read as a call, the call made, and its answer gathered. A malformed line leaves the tree as it was.
#![tactic(auto)]

pub mod state; // how a list begins, and which lines have no call
mod read; // what the words of a line stand for
mod show; // the values of an answer
mod verbs; // the calls by name
mod requests; // calls that are lent room

ghost use Rattle.std.specs.Prelude.{◌≡◌, true};
ghost use Rattle.text_calls.specs.state.Lists as spec;

use crate::read::{Fault, FromWords};
use crate::show::Show;
use crate::state::is_note;
pub use crate::state::{State, start};
use crate::verbs::{Change, Reading, Request};
use index_types::NodeId;
use text_lines::calls::{end, end_line};
use text_lines::print::Out;
use text_lines::words::Words;
use tree_listings::{containing_point, intersect_rect};
use tree_readings::worlds;
use tree_state::{Refusal, Tree};
use tree_types::LocalNode;

// Makes the call of a line, and answers it. A note has no answer and changes nothing. A write that fails is passed over.
pub fn answer(out: &mut Out, line: &[u8], state: &mut State)
    ensures { spec.is_note line.now ≡ true → state.new ≡ state.old }
{
    if is_note(line) {
        return;
    }
    answer_call(out, line, state);
}

fn answer_call(out: &mut Out, line: &[u8], state: &mut State) {
    let mut words = Words::new(line);
    let name = words.next().unwrap_or(b"");
    let answered = call(out, name, &mut words, state);
    let _ = end_line(out, answered, number);
}

// The number of a refusal.
fn number(refusal: Refusal) -> u32 {
    match refusal {
        Refusal::Unsound => 1,
        Refusal::DeadNode => 2,
        Refusal::DeadParent => 3,
        Refusal::BelowItself => 4,
        Refusal::NotFinite => 5,
        Refusal::UnknownFlags => 6,
        Refusal::NeedsCommit => 7,
        Refusal::ShortRoom => 8,
        Refusal::Full => 9,
    }
}

// Calls that change the tree or the room; another name is a request.
fn call(out: &mut Out, name: &[u8], words: &mut Words, state: &mut State) -> Result<(), Fault> {
    let Some(verb) = verbs::change_of(name) else {
        return request(out, name, words, &state.tree, state.ids);
    };
    match verb {
        Change::New => new(out, words, &mut state.tree),
        Change::Room => room(out, words, state),
        Change::Insert => insert(out, words, &mut state.tree),
        Change::Remove => remove(out, words, &mut state.tree),
        Change::Reparent => set(out, words, &mut state.tree, tree_reparent::reparent),
        Change::Commit => requests::commit(out, words, &mut state.tree, state.rects),
        Change::SetLocalBounds => set(out, words, &mut state.tree, tree_setters::set_local_bounds),
        Change::SetHitSlop => set(out, words, &mut state.tree, tree_setters::set_hit_slop),
        Change::SetLocalTransform => set(
            out,
            words,
            &mut state.tree,
            tree_setters::set_local_transform,
        ),
        Change::SetLocalClip => set(out, words, &mut state.tree, tree_setters::set_local_clip),
        Change::SetZIndex => set(out, words, &mut state.tree, tree_setters::set_z_index),
        Change::SetFlags => set(out, words, &mut state.tree, tree_setters::set_flags),
    }
}

// Calls that leave the tree as it is: taps, listings, and whether a commit is due.
fn request(
    out: &mut Out,
    name: &[u8],
    words: &mut Words,
    tree: &Tree,
    ids: u32,
) -> Result<(), Fault> {
    let Some(verb) = verbs::request_of(name) else {
        return reading(out, name, words, tree);
    };
    match verb {
        Request::NeedsCommit => needs_commit(out, words, tree),
        Request::HitTestPoint => requests::hit_test_point(out, words, tree, ids),
        Request::ContainingPoint => requests::listing(out, words, tree, ids, containing_point),
        Request::IntersectRect => requests::listing(out, words, tree, ids, intersect_rect),
        Request::ChildrenOf => requests::children_of(out, words, tree, ids),
    }
}

// Readings of a node.
fn reading(out: &mut Out, name: &[u8], words: &mut Words, tree: &Tree) -> Result<(), Fault> {
    match verbs::reading_of(name).ok_or(Fault::Malformed)? {
        Reading::IsAlive => of_node(out, words, tree, tree_readings::is_alive),
        Reading::ParentOf => of_node(out, words, tree, tree_links::parent_of),
        Reading::NextDepthFirst => of_node(out, words, tree, tree_links::next_depth_first),
        Reading::PrevDepthFirst => of_node(out, words, tree, tree_links::prev_depth_first),
        Reading::ZIndex => of_node(out, words, tree, tree_readings::z_index),
        Reading::Flags => of_node(out, words, tree, tree_readings::flags),
        Reading::LocalBounds => of_node(out, words, tree, tree_readings::local_bounds),
        Reading::HitSlop => of_node(out, words, tree, tree_readings::hit_slop),
        Reading::LocalTransform => of_node(out, words, tree, tree_readings::local_transform),
        Reading::LocalClip => of_node(out, words, tree, tree_readings::local_clip),
        Reading::WorldBounds => of_node(out, words, tree, worlds::world_bounds),
        Reading::WorldHitBounds => of_node(out, words, tree, worlds::world_hit_bounds),
        Reading::WorldTransform => of_node(out, words, tree, worlds::world_transform),
    }
}

// What a call gives.
fn tell<T: Show>(out: &mut Out, answer: Result<T, Refusal>) -> Result<(), Fault> {
    answer.map_err(Fault::Refused)?.show(out)?;
    Ok(())
}

fn new(out: &mut Out, words: &mut Words, tree: &mut Tree) -> Result<(), Fault> {
    end(words)?;
    *tree = tree_state::fresh();
    tell(out, Ok(()))
}

// The room from a line on: it stays through `new`.
fn room(out: &mut Out, words: &mut Words, state: &mut State) -> Result<(), Fault> {
    let room = u32::from_words(words)?;
    end(words)?;
    state.ids = room;
    state.rects = room;
    tell(out, Ok(()))
}

fn insert(out: &mut Out, words: &mut Words, tree: &mut Tree) -> Result<(), Fault> {
    let parent = Option::<NodeId>::from_words(words)?;
    let local = LocalNode::from_words(words)?;
    end(words)?;
    tell(out, tree_insert::insert(tree, parent, local))
}

fn remove(out: &mut Out, words: &mut Words, tree: &mut Tree) -> Result<(), Fault> {
    let id = NodeId::from_words(words)?;
    end(words)?;
    tell(out, tree_remove::remove(tree, id))
}

// A setter, or a move to another parent: of a node, to a value.
fn set<T, F>(out: &mut Out, words: &mut Words, tree: &mut Tree, setter: F) -> Result<(), Fault>
where
    T: FromWords,
    F: FnOnce(&mut Tree, NodeId, T) -> Result<(), Refusal>,
    requires { F.IsAlwaysCallable setter }
{
    let id = NodeId::from_words(words)?;
    let value = T::from_words(words)?;
    end(words)?;
    tell(out, setter(tree, id, value))
}

fn needs_commit(out: &mut Out, words: &mut Words, tree: &Tree) -> Result<(), Fault> {
    end(words)?;
    tell(out, tree_readings::needs_commit(tree))
}

fn of_node<T, F>(out: &mut Out, words: &mut Words, tree: &Tree, reading: F) -> Result<(), Fault>
where
    T: Show,
    F: FnOnce(&Tree, NodeId) -> Result<T, Refusal>,
    requires { F.IsAlwaysCallable reading }
{
    let id = NodeId::from_words(words)?;
    end(words)?;
    tell(out, reading(tree, id))
}
