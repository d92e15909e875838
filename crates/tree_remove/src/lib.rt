// tree.rs's `remove`: the nodes of a subtree go, children first in order. Of each its world box is pending if it has area, its entry is
// marked removed and its slot freed. A refused call leaves the tree as it is.
#![tactic(auto)]

ghost use Rattle.std.specs.Prelude.{◌≡◌, true, ◌<◌};
ghost use Rattle.geometry.specs.Rectangle.{has_area};
ghost use Rattle.index_entries.specs.Entries.{Removes};
ghost use Rattle.tree_steps.specs.Structure as step;
ghost use Rattle.tree_remove.specs.Remove as spec;

use geometry::rect::Rect;
use index_types::{Index, NodeId};
use tree_state::{IndexKey, Pending, Refusal, Slots, Tree};

pub fn remove(tree: &mut Tree, id: NodeId) -> Result<(), Refusal>
    ensures answer { result ≡ (step.remove_call tree.old id).answer }
    ensures tree { tree.new ≡ (step.remove_call tree.old id).tree }
{
    tree_verdicts::nodes::of_node(tree, id)?;
    let at = tree.links.position(id.0);
    let end = tree.links.segment_end(at);
    let mut gone = [0u32; 256];
    tree.links.post_order(at, end, &mut gone);
    remove_nodes(tree, &gone[..end - at]);
    tree.links.cut_tree(at);
    Ok(())
}

// These nodes go, one after the other.
fn remove_nodes(tree: &mut Tree, gone: &[u32])
    requires { spec.Removals tree.old gone.now }
    ensures { tree.new ≡ step.remove_all tree.old gone.now }
{
    for slot in gone {
        remove_node(tree, *slot);
    }
}

// One node goes.
fn remove_node(tree: &mut Tree, slot: u32)
    requires { spec.Goes tree.old slot }
    ensures { tree.new ≡ step.remove_node tree.old slot }
{
    let at = slot as usize;
    push_rect(&mut tree.pending, tree.worlds[at].bounds);
    remove_entry(&mut tree.index, tree.keys[at]);
    free_slot(&mut tree.slots, slot);
}

// The rectangle comes behind the pending ones, if it has area.
fn push_rect(pending: &mut Pending, rect: Rect)
    requires { has_area rect ≡ true → pending.old.count < 256 }
    ensures { pending.new ≡ step.push_rect (has_area rect) pending.old rect }
{
    if rect.has_area() {
        pending.rects[pending.count] = rect;
        pending.count += 1;
    }
}

// The entry of a committed node goes.
fn remove_entry(index: &mut Index, own: IndexKey)
    requires { own.committed ≡ true → Removes index.old own.key.0 }
    ensures { index.new ≡ step.remove_entry own.committed index.old own.key.0 }
{
    if own.committed {
        index_entries::remove_entry(index, own.key.0);
    }
}

// The slot is the next that an insert takes.
fn free_slot(slots: &mut Slots, slot: u32)
    requires { slots.old.frees < 256 }
    ensures { slots.new ≡ step.free_slot slots.old slot }
{
    slots.free[slots.frees] = slot;
    slots.frees += 1;
}
