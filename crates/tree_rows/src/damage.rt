// No code: worked rows of a commit's damage and of the readings of links, each a list of calls computed on the tree's definitions.
