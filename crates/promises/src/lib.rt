// That each promise allows one answer, function by function. No code.
#![tactic(auto)]
