// The abstract machine of document 01's steps: definitions (specs/) and theorems (proofs/). No code.
#![tactic(auto)]
