// The slot that an insert takes (tree.rs: insert).
ghost use Rattle.std.specs.Prelude.{◌≡◌};
ghost use Rattle.tree_steps.specs.Structure as step;
ghost use Rattle.tree_insert.specs.slots.Slots as spec;

use index_types::NodeId;
use tree_state::Slots;

// Inner: the last freed slot, its generation one higher; else the next unused slot, generation 1.
pub(crate) fn next_id(slots: &Slots) -> NodeId
    requires { spec.Takes slots.now }
    ensures { result ≡ spec.id_of slots.now }
{
    if slots.frees == 0 {
        return NodeId(slots.used as u32, 1);
    }
    let slot = slots.free[slots.frees - 1];
    let generation = slots.generation[slot as usize];
    NodeId(slot, generation.saturating_add(1))
}

// Inner: the slot is taken, under the new id.
pub(crate) fn take_slot(slots: &mut Slots, id: NodeId)
    requires slot { spec.Takes slots.old }
    requires id { id ≡ spec.id_of slots.old }
    ensures { slots.new ≡ step.take_slot slots.old }
{
    slots.generation[id.0 as usize] = id.1;
    if slots.frees == 0 {
        slots.used += 1;
    } else {
        slots.frees -= 1;
    }
}
