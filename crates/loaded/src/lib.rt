// No code: a register read from a listing is one that calls reach (specs/ and proofs/).
#![tactic(auto)]
