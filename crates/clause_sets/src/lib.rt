// Theorems only: laws of the sets of clauses that a search has at its nodes. See proofs/.
#![tactic(auto)]
