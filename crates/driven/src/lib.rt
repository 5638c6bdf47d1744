// No code: what the library's slices hold is a register that calls reach (specs/ and proofs/).
#![tactic(auto)]
