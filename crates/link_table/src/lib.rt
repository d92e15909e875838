// The links of a box tree of at most 256 nodes (tree.rs: `parent`, `children`): a table in pre-order, the slots and beside them their depths,
// in front of two arrays (link_forest, specs/Table.antt). Contracts speak of the whole record, so that what stands behind the table is settled
// too.
#![tactic(auto)]

pub mod arrays; // one flat array
pub mod depths; // the slot right above, and the test of the shape
pub mod moves; // a subtree goes out, or moves
pub mod positions; // where a slot stands, and where its segment ends
pub mod segments; // what is read of a segment

ghost use Rattle.std.specs.Prelude.{◌≡◌, ◌∷◌, [], ◌≤◌, ◌<◌};
ghost use Rattle.link_table.specs.Links as spec;

pub use crate::arrays::insert_at;

// `count` slots in pre-order, and how deep each lies: a root at 1. No heap: two arrays of the tree's fixed size. That the count is at most 256 and
// that the depths belong to a forest is no invariant: a tree that is made by hand may break it, and the test of a sound tree reads such a table.
#[derive(Clone, Copy)]
pub struct Links {
    pub order: [u32; 256],
    pub depth: [u32; 256],
    pub count: usize,
}

impl Links {
    // Inner: the slot goes in at the position `at`, to lie at the depth `depth`.
    #[tactic(auto, unfolding(crate::specs::Links::splice))]
    pub fn insert(&mut self, at: usize, slot: u32, depth: u32)
        requires { (at ≤ self.old.count) × (self.old.count < 256) }
        ensures { self.new ≡ spec.splice self.old at (slot ∷ []) (depth ∷ []) }
    {
        insert_at(&mut self.order, self.count, at, slot);
        insert_at(&mut self.depth, self.count, at, depth);
        self.count += 1;
    }

    // Inner: the slot as the last root.
    #[tactic(auto, unfolding(crate::specs::Links::add_root))]
    pub fn add_root(&mut self, slot: u32)
        requires { self.old.count < 256 }
        ensures { self.new ≡ spec.add_root self.old slot }
    {
        self.insert(self.count, slot, 1);
    }

    // Inner: the slot as the last child of the node at the position `at`.
    #[tactic(auto, using(crate::proofs::Changes::depth_fits), unfolding(crate::specs::Links::add_last))]
    pub fn add_last(&mut self, at: usize, slot: u32)
        requires { (at < self.old.count) × (self.old.count < 256) × spec.Shaped self.old }
        ensures { self.new ≡ spec.add_last self.old at slot }
    {
        self.insert(self.segment_end(at), slot, self.depth[at] + 1);
    }
}
