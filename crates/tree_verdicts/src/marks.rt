// What the calls that change links or nodes share: a mark on a node that counts as changed in both.
ghost use Rattle.std.specs.Prelude.{◌≡◌, ◌<◌};
ghost use Rattle.tree_steps.specs.Setters as spec;

use tree_state::Dirty;

// Inner: the tables hold 256.
pub fn mark_both(marks: &mut [Dirty; 256], slot: usize)
    requires { slot < 256 }
    ensures { marks.new ≡ spec.mark_both marks.old slot }
{
    marks[slot] = Dirty {
        marked: true,
        transform: true,
        clip: true,
    };
}
