// The commit of the index within a commit of the tree (tree.rs: commit).
ghost use Rattle.std.specs.Prelude.{◌≡◌};
ghost use Rattle.index_sound.specs.Sound.{SoundOf};
ghost use Rattle.index_commit.specs.Commit as spec;
ghost use Rattle.tree_state.specs.Whole.{WholeIndex};

use index_types::Index;

// Inner: commits every queued slot of the index in order; its damage is the tree's own, so that no box is collected.
pub(crate) fn commit_index(index: &mut Index)
    requires { WholeIndex index.old
        × SoundOf index.old.entries index.old.free index.old.frees index.old.dirty index.old.queued index.old.used }
    ensures { index.new ≡ spec.commit_of index.old (spec.work_of index.old) }
{
    for at in 0..index.queued {
        let slot = index.dirty[at];
        index_commit::commit_slot(index, slot);
    }
    index.queued = 0;
}
