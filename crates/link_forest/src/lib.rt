// No code: the forest that links stand for, its table in pre-order, and their laws, for the crates above.
#![tactic(auto)]
