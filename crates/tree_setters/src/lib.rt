// The setters of local records: tree.rs's `set_local_transform`, `set_local_clip`, `set_local_bounds`, `set_hit_slop`, `set_z_index` and
// `set_flags`. Values are compared as numbers, and an equal one leaves the tree as it is; so does a refused call.
#![tactic(auto)]

pub mod boxes; // bounds and hit slop
pub mod clips; // clip
pub mod levels; // z index and flags
pub mod transforms; // transform

pub use crate::boxes::{set_hit_slop, set_local_bounds};
pub use crate::clips::set_local_clip;
pub use crate::levels::{set_flags, set_z_index};
pub use crate::transforms::set_local_transform;
