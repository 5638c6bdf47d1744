// No code: the window argument of demand 3 as definitions (specs/) and theorems (proofs/), apart from any register.
#![tactic(auto)]
