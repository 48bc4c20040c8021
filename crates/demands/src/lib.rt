// The demands on the whole product as theorems, a file for each, cited from the laws of the crates below. No code.
#![tactic(auto)]
