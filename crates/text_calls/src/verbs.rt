// The calls by name. A further call is a name and a variant in the same place of its group here, and an arm where its group is made.
use text_lines::spelling::named;

// Calls that change the tree or the room.
#[derive(Clone, Copy)]
pub(crate) enum Change {
    New,
    Room,
    Insert,
    Remove,
    Reparent,
    Commit,
    SetLocalBounds,
    SetHitSlop,
    SetLocalTransform,
    SetLocalClip,
    SetZIndex,
    SetFlags,
}

pub(crate) fn change_of(name: &[u8]) -> Option<Change> {
    named(
        b"new room insert remove reparent commit set_local_bounds set_hit_slop set_local_transform set_local_clip set_z_index set_flags",
        &[
            Change::New,
            Change::Room,
            Change::Insert,
            Change::Remove,
            Change::Reparent,
            Change::Commit,
            Change::SetLocalBounds,
            Change::SetHitSlop,
            Change::SetLocalTransform,
            Change::SetLocalClip,
            Change::SetZIndex,
            Change::SetFlags,
        ],
        name,
    )
}

// Calls that leave the tree as it is: taps, listings, and whether a commit is due.
#[derive(Clone, Copy)]
pub(crate) enum Request {
    NeedsCommit,
    HitTestPoint,
    ContainingPoint,
    IntersectRect,
    ChildrenOf,
}

pub(crate) fn request_of(name: &[u8]) -> Option<Request> {
    named(
        b"needs_commit hit_test_point containing_point intersect_rect children_of",
        &[
            Request::NeedsCommit,
            Request::HitTestPoint,
            Request::ContainingPoint,
            Request::IntersectRect,
            Request::ChildrenOf,
        ],
        name,
    )
}

// Readings of a node.
#[derive(Clone, Copy)]
pub(crate) enum Reading {
    IsAlive,
    ParentOf,
    NextDepthFirst,
    PrevDepthFirst,
    ZIndex,
    Flags,
    LocalBounds,
    HitSlop,
    LocalTransform,
    LocalClip,
    WorldBounds,
    WorldHitBounds,
    WorldTransform,
}

pub(crate) fn reading_of(name: &[u8]) -> Option<Reading> {
    named(
        b"is_alive parent_of next_depth_first prev_depth_first z_index flags local_bounds hit_slop \
          local_transform local_clip world_bounds world_hit_bounds world_transform",
        &[
            Reading::IsAlive,
            Reading::ParentOf,
            Reading::NextDepthFirst,
            Reading::PrevDepthFirst,
            Reading::ZIndex,
            Reading::Flags,
            Reading::LocalBounds,
            Reading::HitSlop,
            Reading::LocalTransform,
            Reading::LocalClip,
            Reading::WorldBounds,
            Reading::WorldHitBounds,
            Reading::WorldTransform,
        ],
        name,
    )
}
