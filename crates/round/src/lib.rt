// Laws alone: what is written reads back to the same rows. No code.
#![tactic(auto)]
