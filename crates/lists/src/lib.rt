// Laws of lists and bytes that know nothing of drills: no code.
#![tactic(auto)]
