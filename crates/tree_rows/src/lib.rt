// No code: worked rows of the tree's definitions, lists of calls computed to the plan's answers; and of lent room.
#![tactic(auto)]

pub mod damage; // damage, and the readings of links
pub mod shared; // what the plan and the tree share, and lent room
pub mod sound; // "Sound tree"
