// No code: a commit of a tree and a plan that agree visits the same nodes in the same order and leaves a tree and a plan that agree.
