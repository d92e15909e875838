// The calls of the index (understory_index's index.rs). What each refuses, tells and leaves stands in `index_state`.
#![tactic(auto, unfolding(index_state::specs::Calls::answered))]

pub mod commits; // commit
pub mod inserts; // insert and clear
pub mod queries; // query_rect and query_point
pub mod updates; // update and remove
