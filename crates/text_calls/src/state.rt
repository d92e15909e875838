// How a call list of the box tree begins, and which of its lines have no call.
ghost use Rattle.std.specs.Prelude.{◌≡◌};
ghost use Rattle.text_calls.specs.state.Lists as spec;

use tree_state::Tree;

// The tree, and how many ids and rectangles the room holds that a call is lent.
#[derive(Clone, Copy)]
pub struct State {
    pub tree: Tree,
    pub ids: u32,
    pub rects: u32,
}

// An empty tree, and room for 256 ids and 512 rectangles.
pub fn start() -> State
    ensures { result ≡ spec.first }
{
    State {
        tree: tree_state::fresh(),
        ids: 256,
        rects: 512,
    }
}

// A line without a call: an empty one, or a note.
pub fn is_note(line: &[u8]) -> bool
    ensures { result ≡ spec.is_note line.now }
{
    match line {
        [] => true,
        [first, ..] => *first == b'#',
    }
}
