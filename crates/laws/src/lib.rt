// No code: laws of the definitions in crate rules.
#![tactic(auto)]
