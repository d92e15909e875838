// What the box tree does on the calls of a sheet: definitions and laws.
#![tactic(auto)]
