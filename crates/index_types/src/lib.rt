// Boxes and ids of the index: understory_index's types.rs, the part that FlatVec uses (document 01, module 3). A box may hold any f64,
// NaN and inverted edges included. Each contract says which definition of specs/ the result equals.
#![tactic(auto)]

pub mod rooms; // boxes and ids in lent room

ghost use Rattle.std.specs.Prelude.{◌≡◌};
ghost use Rattle.index_types.specs.Boxes as spec;
ghost use Rattle.index_types.specs.Equality.{aabb_chain};

use numbers::as_numbers::EqualAsNumbers;

// A node of the box tree: its index and generation. The index carries it as payload.
#[derive(Clone, Copy, PartialEq, Eq)]
pub struct NodeId(pub u32, pub u32);

// An entry of the index: its slot and generation. No node id can stand for it.
#[derive(Clone, Copy, PartialEq, Eq)]
pub struct Key(pub u32, pub u32);

// An axis-aligned box. Equality is that of the numbers.
#[derive(Clone, Copy, PartialEq)]
pub struct Aabb2D {
    pub min_x: f64,
    pub min_y: f64,
    pub max_x: f64,
    pub max_y: f64,
}

impl EqualAsNumbers for Aabb2D {
    ghost equality = { spec.aabb_eq };

    ghost is_equality = { aabb_chain };
}

// A slot of the index and the entry that it holds. Mark and flag are numbers: a call takes any index, also one made by hand, and a narrower type would
// ask more of its caller.
#[derive(Clone, Copy)]
pub struct Slot {
    pub generation: u32,
    pub mark: u8, // 0 empty, 1 unmarked, 2 added, 3 updated, from 4 on removed
    pub payload: NodeId,
    pub aabb: Aabb2D,
    pub kept: u8, // 0: no previous box
    pub prev: Aabb2D,
}

// The box that the last commits have left of a slot's entry; 0 in `present` stands for none.
#[derive(Clone, Copy)]
pub struct Stored {
    pub present: u8,
    pub aabb: Aabb2D,
}

// FlatVec: what the commits have left of each slot.
#[derive(Clone, Copy)]
pub struct FlatVec {
    pub entries: [Stored; 512],
}

// The slots; the free list and the queue of dirty slots with their lengths; and the backend.
#[derive(Clone, Copy)]
pub struct Index {
    pub entries: [Slot; 512],
    pub used: usize,
    pub free: [u32; 512],
    pub frees: usize,
    pub dirty: [u32; 512],
    pub queued: usize,
    pub backend: FlatVec,
}

// How many boxes of each kind a commit has found; a move is an old and a new box.
#[derive(Clone, Copy, PartialEq, Eq)]
pub struct Damage {
    pub added: usize,
    pub removed: usize,
    pub moved: usize,
}

// Why a call is refused; `number_of` in specs/Refusals.antt has the numbers.
#[derive(Clone, Copy, PartialEq, Eq)]
pub enum Refusal {
    Unsound,
    ShortRoom,
    DeadKey,
    Full,
}

// The smaller; an unordered pair gives the first.
#[tactic(auto, unfolding(crate::specs::Boxes::least))]
pub fn min_t(a: f64, b: f64) -> f64
    ensures { result ≡ spec.least a b }
{
    if b < a { b } else { a }
}

// The larger; an unordered pair gives the first.
#[tactic(auto, unfolding(crate::specs::Boxes::greatest))]
pub fn max_t(a: f64, b: f64) -> f64
    ensures { result ≡ spec.greatest a b }
{
    if a < b { b } else { a }
}

impl Aabb2D {
    pub fn new(min_x: f64, min_y: f64, max_x: f64, max_y: f64) -> Self
        ensures { result ≡ spec.aabb min_x min_y max_x max_y }
    {
        Self {
            min_x,
            min_y,
            max_x,
            max_y,
        }
    }

    // All edges in.
    #[tactic(auto, unfolding(crate::specs::Boxes::contains_point))]
    pub fn contains_point(self, x: f64, y: f64) -> bool
        ensures { result ≡ spec.contains_point self x y }
    {
        self.min_x <= x && self.min_y <= y && x <= self.max_x && y <= self.max_y
    }

    // All edges in, of both.
    #[tactic(auto, unfolding(crate::specs::Boxes::overlaps))]
    pub fn overlaps(self, other: Aabb2D) -> bool
        ensures { result ≡ spec.overlaps self other }
    {
        self.min_x <= other.max_x
            && self.max_x >= other.min_x
            && self.min_y <= other.max_y
            && self.max_y >= other.min_y
    }

    #[tactic(auto, unfolding(crate::specs::Boxes::union))]
    pub fn union(self, other: Aabb2D) -> Aabb2D
        ensures { result ≡ spec.union self other }
    {
        Aabb2D {
            min_x: min_t(self.min_x, other.min_x),
            min_y: min_t(self.min_y, other.min_y),
            max_x: max_t(self.max_x, other.max_x),
            max_y: max_t(self.max_y, other.max_y),
        }
    }
}
