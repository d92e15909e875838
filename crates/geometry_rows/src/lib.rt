// No code: worked rows of rectangles, transforms and clips, apart from them, so that an edit of theirs does not compute them anew.
#![tactic(auto)]
