// The run-time test of a sound tree on any tree, also one made by hand: linear, and exact in both directions.
#![tactic(auto)]

pub mod entries; // the index's entries
pub mod live; // the live slots
pub mod nodes; // one live node
pub mod slots; // the slots
pub mod walks; // the walks over nodes and entries

ghost use Rattle.std.specs.Prelude.{◌≡◌};
ghost use Rattle.tree_state.specs.Sound.{sound_tree};

use tree_state::Tree;

#[tactic(auto, unfolding(tree_state::specs::Sound::sound_tree))]
pub fn is_sound(tree: &Tree) -> bool
    ensures { result ≡ sound_tree tree.now }
{
    let Some(live) = slots::count_live(tree) else {
        return false;
    };
    tree.links.is_forest()
        && index_sound::is_sound(&tree.index)
        && walks::nodes_right(&live)
        && entries::entries_right(&live)
        && walks::counts_right(&live)
}
