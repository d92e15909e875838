// No code: each call on the tree's record, what it answers and what it leaves, as the contracts of the calls cite it.
#![tactic(auto)]
