// The box tree: its records in small groups, tree.rs's `Tree` with `Node` taken apart, since a call changes one group and leaves the others. A table
// has a place for each of 256 slots; links are a table in pre-order (crate `link_table`).
#![tactic(auto)]

ghost use Rattle.std.specs.Prelude.{◌≡◌};
ghost use Rattle.tree_state.specs.Locals as local;
ghost use Rattle.tree_state.specs.Tree as spec;
ghost use Rattle.tree_state.specs.Whole.{Whole};
ghost use Rattle.tree_state.specs.Worlds as world;

pub use counting::check;
use geometry::affine::Affine;
use geometry::insets::Insets;
use geometry::rect::Rect;
use geometry_clips::clip::Clip;
use geometry_clips::rounded_rect_radii::RoundedRectRadii;
use index_types::{Index, Key};
use link_table::Links;
use tree_types::{LocalNode, NodeFlags};
use tree_worlds::Placed;

// Generations of the used slots, and the free list, the last freed at its end.
#[derive(Clone, Copy)]
pub struct Slots {
    pub generation: [u32; 256],
    pub used: usize,
    pub free: [u32; 256],
    pub frees: usize,
}

// A local record.
#[derive(Clone, Copy)]
pub struct Local {
    pub bounds: Rect,
    pub slop: Insets,
    pub transform: Affine,
    pub kind: u8, // of the clip: 0 none, 1 square, any other rounded
    pub clip: Rect, // its edges
    pub radii: RoundedRectRadii,
    pub level: i32,
    pub flags: NodeFlags,
}

// A node's world record, as the last commit that visited it left it. Its inverse and its depth are worked out where they are asked for.
#[derive(Clone, Copy)]
pub struct WorldNode {
    pub transform: Affine,
    pub clipped: bool, // whether there is a world clip
    pub clip: Rect,
    pub bounds: Rect,
    pub hit_bounds: Rect,
}

impl WorldNode {
    // What the node hands down to its children.
    pub fn place(self) -> Placed
        ensures { result ≡ world.place_of self }
    {
        Placed {
            transform: self.transform,
            clip: self.clipped.then_some(self.clip),
        }
    }

    // The record with another place and other boxes; where there is no world clip the rectangle of the old one stays, unread.
    pub fn store(&mut self, placed: Placed, bounds: Rect, hit_bounds: Rect)
        ensures { self.new ≡ world.stored_world self.old placed bounds hit_bounds }
    {
        *self = WorldNode {
            transform: placed.transform,
            clipped: placed.clip.is_some(),
            clip: placed.clip.unwrap_or(self.clip),
            bounds,
            hit_bounds,
        };
    }
}

// A node's mark, and whether it counts as changed in transform and in clip.
#[derive(Clone, Copy, PartialEq)]
pub struct Dirty {
    pub marked: bool,
    pub transform: bool,
    pub clip: bool,
}

// Whether a node is committed, and then its entry's key.
#[derive(Clone, Copy, PartialEq)]
pub struct IndexKey {
    pub committed: bool,
    pub key: Key,
}

// Pending rectangles: the world boxes, those with area, of nodes that were removed since the last commit.
#[derive(Clone, Copy)]
pub struct Pending {
    pub rects: [Rect; 256],
    pub count: usize,
}

#[derive(Clone, Copy)]
pub struct Tree {
    pub slots: Slots,
    pub links: Links,
    pub locals: [Local; 256],
    pub worlds: [WorldNode; 256],
    pub marks: [Dirty; 256],
    pub keys: [IndexKey; 256],
    pub pending: Pending,
    pub index: Index,
}

// A clip's kind as a number: 0 none, 1 square, 2 rounded.
#[tactic(auto, unfolding(crate::specs::Locals::kind_of))]
fn clip_kind(clip: Clip) -> u8
    ensures { result ≡ local.kind_of clip }
{
    match clip {
        Clip::None => 0,
        Clip::Square { .. } => 1,
        Clip::Rounded { .. } => 2,
    }
}

// Four zeros where there is no clip.
#[tactic(auto, unfolding(crate::specs::Locals::edges_from))]
fn clip_edges(clip: Clip) -> Rect
    ensures { result ≡ local.edges_of clip }
{
    clip.rect().unwrap_or(Rect {
        x0: 0.0,
        y0: 0.0,
        x1: 0.0,
        y1: 0.0,
    })
}

impl Local {
    // The clip that it stands for. A kind stays a number: a tree of any numbers is taken, so an enum would ask more of callers.
    #[tactic(auto, unfolding(crate::specs::Locals::clip_by))]
    pub fn to_clip(self) -> Clip
        ensures { result ≡ local.clip_in self }
    {
        let Rect { x0, y0, x1, y1 } = self.clip;
        let RoundedRectRadii {
            top_left,
            top_right,
            bottom_right,
            bottom_left,
        } = self.radii;
        match self.kind {
            0 => Clip::None,
            1 => Clip::Square { x0, y0, x1, y1 },
            _ => Clip::Rounded {
                x0,
                y0,
                x1,
                y1,
                top_left,
                top_right,
                bottom_right,
                bottom_left,
            },
        }
    }

    // Another clip: its kind, and its edges and radii, 0 where its kind has none.
    pub fn put_clip(&mut self, clip: Clip)
        ensures { self.new ≡ local.put_clip clip self.old }
    {
        self.kind = clip_kind(clip);
        self.clip = clip_edges(clip);
        self.radii = clip.radii();
    }
}

// The record that a local node is stored as.
impl From<LocalNode> for Local {
    ghost from_gives = { λ node result. result ≡ local.record_of node };

    fn from(node: LocalNode) -> Local {
        let clip = node.local_clip;
        Local {
            bounds: node.local_bounds,
            slop: node.hit_slop,
            transform: node.local_transform,
            kind: clip_kind(clip),
            clip: clip_edges(clip),
            radii: clip.radii(),
            level: node.z_index,
            flags: node.flags,
        }
    }
}

// Why a call is refused; `spec.number_of` has document 01's numbers.
#[derive(Clone, Copy)]
pub enum Refusal {
    Unsound,
    DeadNode,
    DeadParent,
    BelowItself,
    NotFinite,
    UnknownFlags,
    NeedsCommit,
    ShortRoom,
    Full,
}

// An empty tree.
#[tactic(auto, using(numbers::proofs::Numbers::literals), unfolding(crate::specs::Tree::fresh_tree))]
pub fn fresh() -> Tree
    ensures { result ≡ spec.fresh_tree }
{
    let slots = Slots {
        generation: [0u32; 256],
        used: 0,
        free: [0u32; 256],
        frees: 0,
    };
    let links = Links {
        order: [0u32; 256],
        depth: [0u32; 256],
        count: 0,
    };
    let none = Rect {
        x0: 0.0,
        y0: 0.0,
        x1: 0.0,
        y1: 0.0,
    };
    let transform = Affine {
        a: 0.0,
        b: 0.0,
        c: 0.0,
        d: 0.0,
        e: 0.0,
        f: 0.0,
    };
    let local = Local {
        bounds: none,
        slop: Insets {
            x0: 0.0,
            y0: 0.0,
            x1: 0.0,
            y1: 0.0,
        },
        transform,
        kind: 0,
        clip: none,
        radii: RoundedRectRadii {
            top_left: 0.0,
            top_right: 0.0,
            bottom_right: 0.0,
            bottom_left: 0.0,
        },
        level: 0,
        flags: NodeFlags(0),
    };
    let world = WorldNode {
        transform,
        clipped: false,
        clip: none,
        bounds: none,
        hit_bounds: none,
    };
    let marks = [Dirty {
        marked: false,
        transform: false,
        clip: false,
    }; 256];
    let keys = [IndexKey {
        committed: false,
        key: Key(0, 0),
    }; 256];
    let pending = Pending {
        rects: [none; 256],
        count: 0,
    };
    let index = index_state::fresh();
    Tree {
        slots,
        links,
        locals: [local; 256],
        worlds: [world; 256],
        marks,
        keys,
        pending,
        index,
    }
}

// Inner: does nothing: the lengths of a tree's tables, as its types have them.
pub fn whole(tree: &Tree)
    ensures { Whole tree.now }
{
    prove!(tree.slots.generation[..].len() == 256);
    prove!(tree.slots.free[..].len() == 256);
    prove!(tree.links.order[..].len() == 256);
    prove!(tree.links.depth[..].len() == 256);
    prove!(tree.locals[..].len() == 256);
    prove!(tree.worlds[..].len() == 256);
    prove!(tree.marks[..].len() == 256);
    prove!(tree.keys[..].len() == 256);
    prove!(tree.pending.rects[..].len() == 256);
    prove!(tree.index.entries[..].len() == 512);
    prove!(tree.index.free[..].len() == 512);
    prove!(tree.index.dirty[..].len() == 512);
    prove!(tree.index.backend.entries[..].len() == 512);
}
