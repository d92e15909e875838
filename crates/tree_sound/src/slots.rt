// The slots of a sound tree: the live and the free ones are below 256, each once, and together they are the used ones.
ghost use Rattle.std.specs.Prelude.{◌≡◌, ◌+◌, is_some, Some, ltb, eqb, get_or};
ghost use Rattle.counting.specs.Times.{tally, every};
ghost use Rattle.tree_state.specs.Sound.{slots_right};
ghost use Rattle.tree_sound.specs.declared.live.Live.{Live};

use crate::live::Live;
use counting::counted;
use tree_state::Tree;

// One slot: among the live and the free ones once if it is used, and never if not.
fn slot_right(slot: usize, used: usize, live: u8, free: u8) -> bool
    ensures { result ≡ eqb (live + free) (tally (ltb slot used)) }
{
    u32::from(live) + u32::from(free) == u32::from(slot < used)
}

// All 256 slots.
fn shares_right(live: &[u8; 256], free: &[u8; 256], used: usize) -> bool
    ensures { result ≡ every 256 (λ x. eqb (get_or live.now x 0 + get_or free.now x 0) (tally (ltb x used))) }
{
    (0..256).all(|slot| slot_right(slot, used, live[slot], free[slot]))
}

// Inner: the live slots, where the slots are right.
#[tactic(auto, unfolding(tree_state::specs::Sound::slots_right), using(crate::proofs::Lists::listed_by))]
pub(crate) fn count_live<'a>(tree: &'a Tree) -> Option<Live<'a>>
    ensures right { is_some result ≡ slots_right tree.now.links.order tree.now.links.count tree.now.slots.free tree.now.slots.frees tree.now.slots.used }
    ensures tree { (live : Live) → result ≡ Some live → live.tree.now ≡ tree.now }
{
    tree_state::whole(tree);
    let used = tree.slots.used;
    let counts = counted(&tree.links.order, tree.links.count)?;
    let free = counted(&tree.slots.free, tree.slots.frees)?;
    let right = used <= 256 && shares_right(&counts, &free, used);
    if right {
        Some(Live { tree, counts })
    } else {
        None
    }
}
