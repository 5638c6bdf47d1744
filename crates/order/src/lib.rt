// The ordered set, dated links and their history: definitions (specs/) and theorems (proofs/). No code.
#![tactic(auto)]
