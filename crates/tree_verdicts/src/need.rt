// Whether a tree needs a commit: "nothing but a mark, a removed entry or a pending rectangle calls for a commit".
ghost use Rattle.std.specs.Prelude.{◌≡◌, ◌≤◌};
ghost use Rattle.index_types.specs.Slots.{entry};
ghost use Rattle.tree_state.specs.Tree as spec;
ghost use Rattle.tree_verdicts.specs.Held.{Ranged};

use index_types::Index;
use tree_state::Tree;

// One of the live slots is marked.
fn any_marked(tree: &Tree) -> bool
    requires { Ranged tree.now }
    ensures { result ≡ spec.any_of (spec.marked_at tree.now) (spec.live_slots tree.now) }
{
    for i in 0..tree.links.count {
        let slot = tree.links.order[i] as usize;
        if tree.marks[slot].marked {
            return true;
        }
    }
    false
}

// One of the used entries is marked removed.
fn any_removed(index: &Index) -> bool
    requires { index.now.used ≤ 512 }
    ensures { result ≡ spec.some index.now.used (λ k. spec.is_removed (entry index.now k).mark) }
{
    for k in 0..index.used {
        if index.entries[k].mark >= 4 {
            return true;
        }
    }
    false
}

// Inner: the need of a tree, sound or not, whose table and index are in range.
pub fn needs_commit(tree: &Tree) -> bool
    requires { Ranged tree.now }
    ensures { result ≡ spec.needs_commit tree.now }
{
    let marked = any_marked(tree);
    let removed = any_removed(&tree.index);
    marked | removed | (tree.pending.count > 0)
}
