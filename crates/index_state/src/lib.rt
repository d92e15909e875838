// The index over FlatVec: understory_index's index.rs over f64, with a node id as payload and 512 slots. Here stands an empty one, and in
// specs/ what its calls refuse, tell and leave; the calls themselves stand in the crate `understory_index`.
#![tactic(auto)]

ghost use Rattle.std.specs.Prelude.{◌≡◌};
ghost use Rattle.index_state.specs.Index as spec;

use index_types::{Aabb2D, NodeId, Slot, Stored};
pub use index_types::{FlatVec, Index, Refusal};

// An empty index.
pub fn fresh() -> Index
    ensures { result ≡ spec.fresh_index }
{
    let aabb = Aabb2D {
        min_x: 0.0,
        min_y: 0.0,
        max_x: 0.0,
        max_y: 0.0,
    };
    let entry = Slot {
        generation: 0,
        mark: 0,
        payload: NodeId(0, 0),
        aabb,
        kept: 0,
        prev: aabb,
    };
    Index {
        entries: [entry; 512],
        used: 0,
        free: [0u32; 512],
        frees: 0,
        dirty: [0u32; 512],
        queued: 0,
        backend: FlatVec {
            entries: [Stored { present: 0, aabb }; 512],
        },
    }
}
