// No code: every accepted call keeps a sound tree sound, and its tables their lengths.
#![tactic(auto)]

pub mod calls; // insert, reparent and the setters
pub mod commit; // commit
pub mod remove; // remove
