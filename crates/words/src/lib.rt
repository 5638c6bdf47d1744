// That the words of a reached register show a drawing, and step as it does: proofs alone.
#![tactic(auto)]
