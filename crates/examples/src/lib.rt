// No code: document 01's examples P1 to P12 as one theorem on the definitions.
#![tactic(auto)]
