// Demand 3 of the register: no range query is starved. No code.
#![tactic(auto)]
