// Laws that the rules as they compute and the rules as a relation are the same rules: no code.
#![tactic(auto)]
