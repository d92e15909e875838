// No code: an accepted remove keeps a tree sound, its tables' lengths, and its agreement with the plan.
