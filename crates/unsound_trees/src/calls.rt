// Every public call on a tree: whether it is refused 1, and whether it then leaves the tree and the room it is lent as they were.
ghost use Rattle.std.specs.Prelude.{◌≤◌};

use crate::same;
use geometry::affine::Affine;
use geometry::insets::Insets;
use geometry::point::Point;
use geometry::rect::Rect;
use geometry_clips::clip::Clip;
use index_types::NodeId;
use tree_readings::worlds;
use tree_state::{Refusal, Tree};
use tree_types::{LocalNode, NodeFlags, QueryFilter};

// What the calls are handed: a node, a parent for it, a number that stands in every value, flags, and room for so many ids' and rectangles' numbers.
#[derive(Clone, Copy)]
struct Handed {
    id: NodeId,
    parent: NodeId,
    number: f64,
    flags: NodeFlags,
    ids: usize,
    rects: usize,
}

// Such as are accepted on a chain of two.
fn accepted() -> Handed
    ensures { (result.ids ≤ 512) × (result.rects ≤ 2048) }
{
    Handed {
        id: NodeId(1, 1),
        parent: NodeId(0, 1),
        number: 3.0,
        flags: NodeFlags(1),
        ids: 512,
        rects: 2048,
    }
}

// Such as are refused on every sound tree.
fn refused() -> Handed
    ensures { (result.ids ≤ 512) × (result.rects ≤ 2048) }
{
    Handed {
        id: NodeId(4294967295, 0),
        parent: NodeId(256, 1),
        number: f64::NAN,
        flags: NodeFlags(255),
        ids: 511,
        rects: 2047,
    }
}

impl Handed {
    fn rect(&self) -> Rect {
        Rect {
            x0: self.number,
            y0: 0.0,
            x1: 10.0,
            y1: 10.0,
        }
    }

    fn insets(&self) -> Insets {
        Insets {
            x0: self.number,
            y0: 0.0,
            x1: 0.0,
            y1: 0.0,
        }
    }

    fn affine(&self) -> Affine {
        Affine {
            a: 1.0,
            b: 0.0,
            c: 0.0,
            d: 1.0,
            e: self.number,
            f: 0.0,
        }
    }

    fn square(&self) -> Clip {
        Clip::Square {
            x0: self.number,
            y0: 0.0,
            x1: 10.0,
            y1: 10.0,
        }
    }

    fn point(&self) -> Point {
        Point {
            x: self.number,
            y: 3.0,
        }
    }

    fn local(&self) -> LocalNode {
        let mut local = LocalNode::default();
        local.local_bounds = self.rect();
        local
    }

    fn filter(&self) -> QueryFilter {
        QueryFilter {
            required_flags: self.flags,
        }
    }
}

// How many calls there were, how many of them were refused 1, and how many of these changed something.
#[derive(Clone, Copy)]
pub(crate) struct Tally {
    pub(crate) calls: u32,
    pub(crate) refused: u32,
    pub(crate) changed: u32,
}

fn is_unsound<T>(answer: &Result<T, Refusal>) -> bool {
    matches!(answer, Err(Refusal::Unsound))
}

impl Tally {
    fn count(&mut self, is_refused: bool, is_left: bool) {
        self.calls = self.calls.wrapping_add(1);
        if is_refused {
            self.refused = self.refused.wrapping_add(1);
        }
        if is_refused && !is_left {
            self.changed = self.changed.wrapping_add(1);
        }
    }

    fn reading<T: Drop>(&mut self, answer: Result<T, Refusal>) {
        self.count(is_unsound(&answer), true);
    }

    // A call that changes a tree, made on a copy.
    fn change<T: Drop, F>(&mut self, tree: &Tree, call: F)
    where
        F: FnOnce(&mut Tree) -> Result<T, Refusal>,
        requires { F.IsAlwaysCallable call }
    {
        let mut after = *tree;
        let answer = call(&mut after);
        self.count(is_unsound(&answer), same::trees(&after, tree));
    }

    // A call that is lent room for so many numbers of ids.
    fn listing<T: Drop, F>(&mut self, numbers: usize, call: F)
    where
        F: FnOnce(&mut [u32]) -> Result<T, Refusal>,
        requires callable { F.IsAlwaysCallable call }
        requires fits { numbers ≤ 512 }
    {
        let mut room = [77; 512];
        let answer = call(&mut room[..numbers]);
        self.count(is_unsound(&answer), room == [77; 512]);
    }

    fn commit(&mut self, tree: &Tree, numbers: usize)
        requires { numbers ≤ 2048 }
    {
        let mut after = *tree;
        let mut room = [77.5; 2048];
        let answer = tree_commit::commit(&mut after, &mut room[..numbers]);
        let is_left = same::trees(&after, tree) && same::floats(&room, &[77.5; 2048]);
        self.count(is_unsound(&answer), is_left);
    }

    fn local_readings(&mut self, tree: &Tree, id: NodeId) {
        self.reading(tree_readings::needs_commit(tree));
        self.reading(tree_readings::is_alive(tree, id));
        self.reading(tree_readings::local_bounds(tree, id));
        self.reading(tree_readings::hit_slop(tree, id));
        self.reading(tree_readings::local_transform(tree, id));
        self.reading(tree_readings::local_clip(tree, id));
        self.reading(tree_readings::z_index(tree, id));
        self.reading(tree_readings::flags(tree, id));
    }

    fn other_readings(&mut self, tree: &Tree, id: NodeId) {
        self.reading(tree_links::parent_of(tree, id));
        self.reading(tree_links::next_depth_first(tree, id));
        self.reading(tree_links::prev_depth_first(tree, id));
        self.reading(worlds::world_transform(tree, id));
        self.reading(worlds::world_bounds(tree, id));
        self.reading(worlds::world_hit_bounds(tree, id));
    }

    fn setters(&mut self, tree: &Tree, h: Handed) {
        let id = h.id;
        self.change(
            tree,
            |t| tree_setters::set_local_transform(t, id, h.affine()),
        );
        self.change(tree, |t| tree_setters::set_local_clip(t, id, h.square()));
        self.change(tree, |t| tree_setters::set_local_bounds(t, id, h.rect()));
        self.change(tree, |t| tree_setters::set_hit_slop(t, id, h.insets()));
        self.change(tree, |t| tree_setters::set_z_index(t, id, 1));
        self.change(tree, |t| tree_setters::set_flags(t, id, h.flags));
    }

    fn structure(&mut self, tree: &Tree, h: Handed) {
        self.change(tree, |t| tree_remove::remove(t, h.id));
        self.change(tree, |t| tree_reparent::reparent(t, h.id, Some(h.parent)));
        self.change(tree, |t| tree_insert::insert(t, Some(h.parent), h.local()));
    }

    fn listings(&mut self, tree: &Tree, h: Handed)
        requires { h.ids ≤ 512 }
    {
        self.listing(h.ids, |room| tree_links::children_of(tree, h.id, room));
        self.listing(h.ids, |room| {
            tree_taps::hit_test_point(tree, h.point(), h.filter(), room)
        });
        self.listing(h.ids, |room| {
            tree_listings::intersect_rect(tree, h.rect(), h.filter(), room)
        });
        self.listing(h.ids, |room| {
            tree_listings::containing_point(tree, h.point(), h.filter(), room)
        });
    }

    // All 28.
    fn all(&mut self, tree: &Tree, h: Handed)
        requires { (h.ids ≤ 512) × (h.rects ≤ 2048) }
    {
        self.local_readings(tree, h.id);
        self.other_readings(tree, h.id);
        self.listings(tree, h);
        self.setters(tree, h);
        self.structure(tree, h);
        self.commit(tree, h.rects);
    }
}

// All 28, each with arguments of both kinds.
pub(crate) fn every(tree: &Tree) -> Tally {
    let mut tally = Tally {
        calls: 0,
        refused: 0,
        changed: 0,
    };
    tally.all(tree, accepted());
    tally.all(tree, refused());
    tally
}
