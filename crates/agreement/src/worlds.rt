// No code: a commit makes every live node's stored world records and its entry's box those worked out afresh, keeps the tree sound, and keeps the
// agreement with the plan.
