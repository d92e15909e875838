// What a start of a commit has walked: its position, or its segment where it counts as changed.
ghost use Rattle.std.specs.Prelude.{◌≡◌, cond, ◌++◌, ◌+◌, ◌-◌, ◌≤◌, ◌<◌, take};
ghost use Rattle.link_table.specs.Links.{in_front, end_of};
ghost use Rattle.tree_steps.specs.Commit.{changed_at, positions_from};

use tree_state::Tree;

// Inner: whether a slot counts as changed, in transform or in clip.
pub(crate) fn changed(tree: &Tree, x: u32) -> bool
    requires { x < 256 }
    ensures { result ≡ changed_at tree.now x }
{
    let dirty = tree.marks[x as usize];
    dirty.marked & (dirty.transform | dirty.clip)
}

// Inner: where the walk of the slot x from its position `at` ends: behind its whole segment, or right behind itself.
pub(crate) fn walk_end(tree: &Tree, at: usize, x: u32) -> usize
    requires { (at < tree.now.links.count) × (tree.now.links.count ≤ 256) × (x < 256) }
    ensures { (at < result) × (result ≤ tree.now.links.count)
        × (result ≡ cond (changed_at tree.now x) (end_of tree.now.links at) (at + 1)) }
{
    let whole = changed(tree, x);
    if whole {
        return tree.links.segment_end(at);
    }
    at + 1
}

// Inner: the positions from `from` up to `end` go behind the first n, and how many there are then.
pub(crate) fn push_positions(out: &mut [u32; 256], n: usize, from: usize, end: usize) -> usize
    requires { (from ≤ end) × (end ≤ 256) × (n + (end - from) ≤ 256) }
    ensures { (out.new ≡ in_front (take n out.old ++ positions_from from (end - from)) out.old) × (result ≡ n + (end - from)) }
{
    for at in from..end {
        out[n + (at - from)] = at as u32;
    }
    n + (end - from)
}
