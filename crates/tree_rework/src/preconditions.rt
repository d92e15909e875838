// No code: what the rework of a position needs so that every table holds what it stores.
