// Depths in the table of links (link_forest, specs/Table.antt): the slot right above a position, and the test of the shape.
ghost use Rattle.std.specs.Prelude.{◌≡◌, ◌≤◌, ◌<◌, take};
ghost use Rattle.link_forest.specs.Table.{depths_from};
ghost use Rattle.link_table.specs.Links as spec;

use crate::Links;

impl Links {
    // Inner: the slot right above the position `at`, if it is no root's.
    pub fn parent_at(&self, at: usize) -> Option<u32>
        requires { at < 256 }
        ensures { result ≡ spec.parent_at self.now at }
    {
        let depth = self.depth[at];
        for j in (0..at).rev() {
            if self.depth[j] < depth {
                return Some(self.order[j]);
            }
        }
        None
    }

    // Inner: whether the depths belong to some forest.
    pub fn is_forest(&self) -> bool
        requires { self.now.count ≤ 256 }
        ensures { result ≡ depths_from 0 (take self.now.count self.now.depth) }
    {
        let mut above = 0;
        for depth in &self.depth[..self.count] {
            if *depth < 1 {
                return false;
            }
            if above + 1 < *depth {
                return false;
            }
            above = *depth;
        }
        true
    }
}
