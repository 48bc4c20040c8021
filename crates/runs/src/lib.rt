// Laws of runs of any state machine: no code, and not one word of drills.
#![tactic(auto)]
