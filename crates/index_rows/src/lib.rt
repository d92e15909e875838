// No code: worked rows of the index's definitions, apart from them, so that an edit of the index does not compute them anew.
#![tactic(auto)]
