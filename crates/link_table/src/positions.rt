// Places in the table of links (link_forest, specs/Table.antt): where a slot stands, and where its segment ends.
ghost use Rattle.std.specs.Prelude.{◌≡◌, ◌≤◌, ◌<◌};
ghost use Rattle.link_table.specs.Links as spec;

use crate::{Links, arrays};

impl Links {
    // Inner: the first position of the slot, or the count where it has none: callers but one know that it is there, so an Option would be no plainer.
    pub fn position(&self, slot: u32) -> usize
        requires { self.now.count ≤ 256 }
        ensures { (result ≤ self.now.count) × (result ≡ spec.position_of self.now slot) }
    {
        arrays::position(&self.order[..self.count], slot).unwrap_or(self.count)
    }

    // Inner: whether the slot is in the table.
    pub fn contains(&self, slot: u32) -> bool
        requires { self.now.count ≤ 256 }
        ensures { result ≡ spec.contains self.now slot }
    {
        self.position(slot) < self.count
    }

    // Inner: where the segment of the position `at` ends: the node, and what is below it.
    pub fn segment_end(&self, at: usize) -> usize
        requires { (at < self.now.count) × (self.now.count ≤ 256) }
        ensures { (at < result) × (result ≤ self.now.count) × (result ≡ spec.end_of self.now at) }
    {
        arrays::segment_end(&self.depth[..self.count], at)
    }
}
