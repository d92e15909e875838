// Types of the box tree: understory_box_tree's types.rs, and the filter of tree.rs (document 01, module 6). Node ids stand in `index_types`, since
// the index carries them.
#![tactic(auto)]

pub mod rooms; // rectangles in lent room

ghost use Rattle.std.specs.Prelude.{◌≡◌};
ghost use Rattle.tree_types.specs.Local as spec;

use geometry::affine::Affine;
use geometry::insets::Insets;
use geometry::rect::Rect;
use geometry_clips::clip::Clip;
use index_types::Aabb2D;

// A flag byte; above 7 it is refused with 6 wherever it would be stored or asked for.
#[derive(Clone, Copy)]
pub struct NodeFlags(pub u8);

const VISIBLE: u8 = 1;

const PICKABLE: u8 = 2;

const FOCUSABLE: u8 = 4;

// Visible and pickable.
impl Default for NodeFlags {
    ghost is_default = { λ f. f ≡ spec.default_flags };

    fn default() -> NodeFlags {
        NodeFlags(3)
    }
}

impl NodeFlags {
    // All flags of `other`.
    #[tactic(auto, unfolding(crate::specs::Local::has_all))]
    pub fn contains(self, other: NodeFlags) -> bool
        ensures { result ≡ spec.has_all self other }
    {
        self.0 & other.0 == other.0
    }

    // No bit above the three flags.
    pub fn is_known(self) -> bool
        ensures { result ≡ spec.known self }
    {
        self.0 < 8
    }
}

// A node's local record.
#[derive(Clone, Copy)]
pub struct LocalNode {
    pub local_bounds: Rect,
    pub hit_slop: Insets,
    pub local_transform: Affine,
    pub local_clip: Clip,
    pub z_index: i32,
    pub flags: NodeFlags,
}

impl Default for LocalNode {
    ghost is_default = { λ v. v ≡ spec.default_local };

    fn default() -> LocalNode {
        LocalNode {
            local_bounds: Rect {
                x0: 0.0,
                y0: 0.0,
                x1: 0.0,
                y1: 0.0,
            },
            hit_slop: Insets::default(),
            local_transform: Affine::identity(),
            local_clip: Clip::None,
            z_index: 0,
            flags: NodeFlags::default(),
        }
    }
}

// What a request asks of a node's flags.
#[derive(Clone, Copy)]
pub struct QueryFilter {
    pub required_flags: NodeFlags,
}

impl QueryFilter {
    // Asks for no flag: every node.
    pub fn new() -> Self
        ensures { result ≡ spec.asking 0 }
    {
        QueryFilter {
            required_flags: NodeFlags(0),
        }
    }

    pub fn visible(self) -> Self
        ensures { result ≡ spec.also_asking self 1 }
    {
        let f = self.required_flags;
        QueryFilter {
            required_flags: NodeFlags(f.0 | VISIBLE),
        }
    }

    pub fn pickable(self) -> Self
        ensures { result ≡ spec.also_asking self 2 }
    {
        let f = self.required_flags;
        QueryFilter {
            required_flags: NodeFlags(f.0 | PICKABLE),
        }
    }

    pub fn focusable(self) -> Self
        ensures { result ≡ spec.also_asking self 4 }
    {
        let f = self.required_flags;
        QueryFilter {
            required_flags: NodeFlags(f.0 | FOCUSABLE),
        }
    }

    // All asked flags are there.
    pub fn matches(self, node_flags: NodeFlags) -> bool
        ensures { result ≡ spec.has_all node_flags self.required_flags }
    {
        let asked = self.required_flags;
        node_flags.contains(asked)
    }
}

// util.rs: the index's box of a rectangle. No `From`: both types are of other crates.
pub fn rect_to_aabb(r: Rect) -> Aabb2D
    ensures { result ≡ spec.rect_to_aabb r }
{
    Aabb2D::new(r.x0, r.y0, r.x1, r.y1)
}
