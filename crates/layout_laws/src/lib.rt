// Theorems only: what a text opens is well formed, and laws of the layout by which the code is proved. See proofs/.
#![tactic(auto)]
