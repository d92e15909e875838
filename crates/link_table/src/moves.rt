// A node with what is below it goes out of the table of links, or moves (tree.rs, the link functions).
ghost use Rattle.std.specs.Prelude.{◌≡◌, ◌+◌, ◌-◌, ◌≤◌, ◌<◌};
ghost use Rattle.link_table.specs.Links as spec;

use crate::{Links, arrays};

impl Links {
    // Inner: without the node at the position `at` and what is below it.
    #[tactic(auto, unfolding(crate::specs::Links::cut_tree))]
    pub fn cut_tree(&mut self, at: usize)
        requires { (at < self.old.count) × (self.old.count ≤ 256) }
        ensures { self.new ≡ spec.cut_tree self.old at }
    {
        let end = self.segment_end(at);
        arrays::cut_out(&mut self.order, self.count, at, end);
        arrays::cut_out(&mut self.depth, self.count, at, end);
        self.count = at + (self.count - end);
    }

    // The node of `from` at the position `at`, with what is below it, goes in at the position `to`, to lie at the depth `depth`.
    #[tactic(auto, unfolding(crate::specs::Links::graft, crate::specs::Links::splice))]
    fn graft(&mut self, to: usize, depth: u32, from: &Links, at: usize)
        requires { (to ≤ self.old.count) × (at < from.now.count) × (from.now.count ≤ 256)
            × (self.old.count + (spec.end_of from.now at - at) ≤ 256)
            × spec.Shaped from.now
            × (depth ≤ 257) }
        ensures { self.new ≡ spec.graft self.old to depth from.now at }
    {
        let end = from.segment_end(at);
        let count = end - at;
        arrays::insert_all(&mut self.order, self.count, to, &from.order[at..end]);
        arrays::insert_all(&mut self.depth, self.count, to, &from.depth[at..end]);
        arrays::rebase(&mut self.depth[to..to + count], from.depth[at], depth);
        self.count += count;
    }

    // Inner: the node at the position `at`, with what is below it, as the last child of the node at the position `to`, which is none of these.
    #[tactic(auto, unfolding(crate::specs::Links::move_last, crate::specs::Links::graft_last))]
    pub fn move_last(&mut self, at: usize, to: usize)
        requires { (at < self.old.count)
            × (to < self.old.count)
            × (self.old.count ≤ 256)
            × (at ≤ to → spec.end_of self.old at ≤ to)
            × spec.Shaped self.old }
        ensures { self.new ≡ spec.move_last self.old at to }
    {
        let before = *self;
        let to = after_cut(at, self.segment_end(at), to);
        self.cut_tree(at);
        self.graft(self.segment_end(to), self.depth[to] + 1, &before, at);
    }

    // Inner: the node at the position `at`, with what is below it, as the last root.
    #[tactic(auto, unfolding(crate::specs::Links::move_root))]
    pub fn move_root(&mut self, at: usize)
        requires { (at < self.old.count) × (self.old.count ≤ 256) × spec.Shaped self.old }
        ensures { self.new ≡ spec.move_root self.old at }
    {
        let before = *self;
        self.cut_tree(at);
        self.graft(self.count, 1, &before, at);
    }
}

// Where a position lies when those from `at` up to `end` are out.
#[tactic(auto, unfolding(crate::specs::Links::after_cut))]
fn after_cut(at: usize, end: usize, position: usize) -> usize
    requires { (at ≤ end) × (at ≤ position → end ≤ position) }
    ensures { result ≡ spec.after_cut at end position }
{
    if position < at {
        position
    } else {
        position - (end - at)
    }
}
