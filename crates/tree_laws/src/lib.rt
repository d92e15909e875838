// No code: what the proofs of the tree's calls share, of a tree whose tables have their lengths and whose links are a forest's.
#![tactic(auto)]
