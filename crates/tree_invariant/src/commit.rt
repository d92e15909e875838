// No code: every accepted commit keeps the tree sound and the lengths of its tables, and each turn of it finds what it needs.
