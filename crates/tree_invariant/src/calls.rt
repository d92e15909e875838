// No code: every accepted insert, reparent and setter keeps the tree sound and the lengths of its tables.
