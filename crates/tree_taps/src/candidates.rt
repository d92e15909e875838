// The strongest of the candidates of a tap (tree.rs: hit_test_point).
ghost use Rattle.std.specs.Prelude.{◌≡◌, ◌<◌, IfSome};
ghost use Rattle.tree_steps.specs.Requests as request;
ghost use Rattle.tree_taps.specs.fine.Fine.{Shown, Tappable};
ghost use Rattle.tree_taps.specs.candidates.Candidates as spec;

use crate::fine::fine;
use crate::order::next;
use geometry::point::Point;
use index_types::Aabb2D;
use tree_listings::entries::node_of;
use tree_state::Tree;
use tree_types::NodeFlags;

// Whether an entry is visited, and its node passes the fine test.
fn candidate(tree: &Tree, entry: usize, here: Aabb2D, asked: NodeFlags, point: Point) -> bool
    requires { (entry < 512) × Tappable tree.now }
    ensures { result ≡ spec.candidate tree.now asked point here entry }
{
    let visited = index_query::visited(&tree.index, entry, here);
    if !visited {
        return false;
    }
    fine(tree, node_of(tree, entry) as usize, asked, point)
}

// Inner: the slot of the strongest of the candidates, if there is one, after the tests.
pub fn strongest(tree: &Tree, asked: NodeFlags, point: Point) -> Option<u32>
    requires { Tappable tree.now }
    ensures node { spec.best_of result ≡ request.hit_node tree.now asked point }
    ensures shown { IfSome result (Shown tree.now) }
{
    let here = Aabb2D::new(point.x, point.y, point.x, point.y);
    let mut best = None;
    for entry in 0..tree.index.used {
        let take = candidate(tree, entry, here, asked, point);
        if take {
            best = next(tree, node_of(tree, entry), best);
        }
    }
    best
}
