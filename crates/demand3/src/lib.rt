// No code: demand 3, proved of every list of calls on the tree; soundness, refusal 1, readings and lent room over any list.
#![tactic(auto)]
