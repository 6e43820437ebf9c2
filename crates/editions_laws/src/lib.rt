// Theorems only: the two conversions undo each other, and equal rules are found whether tagged or not. See proofs/.
#![tactic(auto)]
