// No code: the demands as types (specs/) and their proofs (proofs/).
#![tactic(auto)]
