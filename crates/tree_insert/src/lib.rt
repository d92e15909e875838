// tree.rs's `insert`: a slot is taken, the new node linked last under its parent or last of the roots, its local record stored, and the
// node marked, changed in both. A refused call leaves the tree as it was.
#![tactic(auto)]

pub mod slots; // the slot that is taken
pub mod stores; // what is stored there
pub mod verdict; // why it is refused

ghost use Rattle.std.specs.Prelude.{◌≡◌};
ghost use Rattle.tree_steps.specs.Structure as step;
ghost use Rattle.tree_insert.specs.Insert as spec;

use index_types::NodeId;
use link_table::Links;
use tree_state::{Refusal, Tree};
use tree_types::LocalNode;
use tree_verdicts::marks;

// Last under its parent, or last of the roots.
fn link_slot(links: &mut Links, parent: Option<NodeId>, slot: u32)
    requires { spec.Linkable links.old parent }
    ensures { links.new ≡ spec.linked links.old parent slot }
{
    match parent {
        None => links.add_root(slot),
        Some(above) => {
            let at = links.position(above.0);
            links.add_last(at, slot);
        }
    }
}

// Inner: the insert of a call that the tests accept.
#[tactic(auto, unfolding(tree_steps::specs::Structure::insert_tree))]
pub fn insert_accepted(tree: &mut Tree, parent: Option<NodeId>, local: LocalNode) -> NodeId
    requires { spec.Room tree.old parent }
    ensures id { result ≡ step.new_id tree.old }
    ensures tree { tree.new ≡ step.insert_tree tree.old parent local }
{
    let id = slots::next_id(&tree.slots);
    let slot = id.0 as usize;
    slots::take_slot(&mut tree.slots, id);
    link_slot(&mut tree.links, parent, id.0);
    stores::store_local(&mut tree.locals, slot, local);
    stores::clear_boxes(&mut tree.worlds[slot]);
    marks::mark_both(&mut tree.marks, slot);
    tree.keys[slot].committed = false; // no key in the index yet
    id
}

// The new node's id, or why there is none; tree_run's `insert_told` has the refusals' numbers.
#[tactic(auto, unfolding(crate::specs::Insert::insert_call))]
pub fn insert(tree: &mut Tree, parent: Option<NodeId>, local: LocalNode) -> Result<NodeId, Refusal>
    ensures answer { result ≡ (spec.insert_call tree.old parent local).answer }
    ensures tree { tree.new ≡ (spec.insert_call tree.old parent local).tree }
{
    verdict::test(tree, parent, local)?;
    Ok(insert_accepted(tree, parent, local))
}
