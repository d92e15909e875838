// The live slots of a sound tree.
ghost use Rattle.tree_sound.specs.Parts.{Listed, Counted};

use tree_state::Tree;

// Inner: a tree whose slots are right, and how often each number stands among its live slots.
#[derive(Drop)]
pub(crate) struct Live<'a> {
    pub(crate) tree: &'a Tree,
    pub(crate) counts: [u8; 256],
    ghost listed: { Listed tree.now },
    ghost counted: { Counted tree.now counts },
}
