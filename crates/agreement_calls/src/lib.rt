// No code: on a tree and a plan that agree every call is refused alike, hands out the same id, and leaves a tree and a plan that agree.
#![tactic(auto)]

pub mod commit; // commit
pub mod requests; // taps and listings
