// No code: any list of calls on the tree, read off what the contracts of the calls cite; what a caller is told; each call by its verdict.
#![tactic(auto)]
