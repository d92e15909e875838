// Which of two candidates of a tap is the stronger: level, depth, generation, index (tree.rs: hit_test_point, id_is_newer).
ghost use Rattle.std.specs.Prelude.{◌≡◌, IfSome, get_or};
ghost use Rattle.tree_state.specs.Locals.{record_at};
ghost use Rattle.tree_state.specs.Tree.{position_of, generation_at};
ghost use Rattle.tree_steps.specs.Requests as request;
ghost use Rattle.tree_taps.specs.fine.Fine.{Shown, Tappable};
ghost use Rattle.tree_taps.specs.candidates.Candidates.{best_of};

use tree_state::Tree;

// What a node is compared by, in this order: its level, its depth, and by its id which is the newer.
#[derive(Clone, Copy, PartialEq, PartialOrd)]
struct Rank {
    level: i32,
    depth: u32,
    generation: u32,
    slot: u32,
}

fn rank_of(tree: &Tree, slot: u32) -> Rank
    requires { Shown tree.now slot × Tappable tree.now }
    ensures { (result.level ≡ (record_at tree.now.locals slot).level)
        × (result.depth ≡ get_or tree.now.links.depth (position_of tree.now slot) 0)
        × (result.generation ≡ generation_at tree.now slot)
        × (result.slot ≡ slot) }
{
    Rank {
        level: tree.locals[slot as usize].level,
        depth: tree.links.depth[tree.links.position(slot)],
        generation: tree.slots.generation[slot as usize],
        slot,
    }
}

// Whether the slot x wins over y.
fn stronger(tree: &Tree, x: u32, y: u32) -> bool
    requires { Shown tree.now x × Shown tree.now y × Tappable tree.now }
    ensures { result ≡ request.stronger tree.now x y }
{
    rank_of(tree, x) > rank_of(tree, y)
}

// Inner: the stronger of the best so far and x.
pub(crate) fn next(tree: &Tree, x: u32, best: Option<u32>) -> Option<u32>
    requires { Shown tree.now x × IfSome best (Shown tree.now) × Tappable tree.now }
    ensures next { best_of result ≡ request.next tree.now x (best_of best) }
    ensures shown { IfSome result (Shown tree.now) }
{
    let Some(y) = best else {
        return Some(x);
    };
    if stronger(tree, x, y) {
        Some(x)
    } else {
        Some(y)
    }
}
