// Theorems only: what a QDIMACS text opens is what our own text opens. See proofs/.
#![tactic(auto)]
