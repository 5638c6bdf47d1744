// Demand 2 in the mission's own words, and that it is not vacuous: definitions and proofs alone.
#![tactic(auto)]
