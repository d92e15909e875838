// What an insert stores in its slot (tree.rs): the local record, and no world boxes.
// A slot is a plain number, its bound in the contracts: a type of its own would be taken apart at each table, and is no plainer.
ghost use Rattle.std.specs.Prelude.{◌≡◌, ◌<◌};
ghost use Rattle.tree_types.specs.Local as local_spec;
ghost use Rattle.tree_steps.specs.Structure as step;

use geometry::rect::Rect;
use tree_state::{Local, WorldNode};
use tree_types::LocalNode;

// Inner: the local record, its clip put through the constructor.
#[tactic(auto, unfolding(tree_types::specs::Local::stored))]
pub(crate) fn store_local(locals: &mut [Local; 256], slot: usize, local: LocalNode)
    requires { slot < 256 }
    ensures { locals.new ≡ step.store_local locals.old slot (local_spec.stored local) }
{
    let clip = local.local_clip.construct();
    locals[slot] = Local::from(LocalNode {
        local_clip: clip,
        ..local
    });
}

// Inner: no world boxes yet.
pub(crate) fn clear_boxes(world: &mut WorldNode)
    ensures { world.new ≡ step.clear_boxes world.old }
{
    let none = Rect {
        x0: 0.0,
        y0: 0.0,
        x1: 0.0,
        y1: 0.0,
    };
    world.bounds = none;
    world.hit_bounds = none;
}
