// No code: when a tree and a plan agree, and what a tree made from fresh keeps beside soundness; demand 3 is proved by it.
#![tactic(auto)]

pub mod worlds; // a commit makes every stored record right
