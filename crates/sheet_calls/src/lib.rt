// No code: the calls that a plan sheet stands for, and what its taps answer (document 01, "The plan sheet").
#![tactic(auto)]
