// No code: document 01's plain plan, the taps and listings worked out afresh from it, redaction, and demand 3 as a type.
#![tactic(auto)]
