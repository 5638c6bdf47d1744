// Demand 3 on the drawing: the one-step facts that crate fairness asks, for anything that goes on as a drawing does.
// No code.
#![tactic(auto)]
