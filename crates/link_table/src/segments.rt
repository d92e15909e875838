// What is read of a segment of the table of links (tree.rs: `children`). The caller lends the room for it: no heap.
ghost use Rattle.std.specs.Prelude.{◌≡◌, ◌-◌, ◌≤◌, length};
ghost use Rattle.link_table.specs.Links as spec;

use crate::{Links, arrays};

impl Links {
    // Inner: the slots at the depth `depth` among the positions from `from` up to `to`, in order, in front of `out`, and how many.
    pub fn slots_at(&self, from: usize, to: usize, depth: u32, out: &mut [u32; 256]) -> usize
        requires { (from ≤ to) × (to ≤ 256) }
        ensures room { out.new ≡ spec.in_front (spec.slots_at self.now from to depth) out.old }
        ensures count { (result ≤ to - from) × (result ≡ length (spec.slots_at self.now from to depth)) }
    {
        let mut count = 0;
        for i in from..to {
            if self.depth[i] == depth {
                out[count] = self.order[i];
                count += 1;
            }
        }
        count
    }

    // Inner: the slots of the positions from `from` up to `to`, children first, in front of `out`.
    pub fn post_order(&self, from: usize, to: usize, out: &mut [u32; 256])
        requires { (from ≤ to) × (to ≤ 256) }
        ensures { out.new ≡ spec.in_front (spec.post_order self.now from to) out.old }
    {
        for at in (from..to).rev() {
            let count = to - at - 1;
            let end = arrays::segment_end(&self.depth[..to], at);
            arrays::insert_at(out, count, end - at - 1, self.order[at]);
        }
    }
}
