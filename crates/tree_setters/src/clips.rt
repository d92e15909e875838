// The setter of what a node clips: tree.rs's `set_local_clip` (see tree_setters).
ghost use Rattle.std.specs.Prelude.{◌≡◌};
ghost use Rattle.tree_steps.specs.Setters as spec;

use geometry_clips::clip::Clip;
use index_types::NodeId;
use tree_state::{Dirty, Refusal, Tree, check};
use tree_verdicts::nodes;

// The clip is put through the constructor before it is compared.
#[tactic(auto, unfolding(tree_steps::specs::Setters::set_clip))]
pub fn set_local_clip(tree: &mut Tree, id: NodeId, clip: Clip) -> Result<(), Refusal>
    ensures answer { result ≡ (spec.clip_call tree.old id clip).answer }
    ensures tree { tree.new ≡ (spec.clip_call tree.old id clip).tree }
{
    nodes::of_node(tree, id)?;
    check(clip.is_finite(), Refusal::NotFinite)?;
    let slot = id.0 as usize;
    let made = clip.construct();
    let stored = tree.locals[slot].to_clip();
    if stored == made {
        return Ok(());
    }
    tree.locals[slot].put_clip(made);
    tree.marks[slot] = Dirty {
        marked: true,
        clip: true,
        ..tree.marks[slot]
    };
    Ok(())
}
