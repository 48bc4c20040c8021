// No code: what the answers of reading, editing, writing and asking say.
#![tactic(auto)]
