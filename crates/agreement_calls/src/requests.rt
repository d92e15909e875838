// No code: taps and listings over the stored records and the index are the plan's definitions afresh, where the two agree and need no commit.
