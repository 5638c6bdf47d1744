// Registers that starts and steps reach, and the history that their calls give. No code: definitions in specs/, laws
// of the history in proofs/.
#![tactic(auto)]
