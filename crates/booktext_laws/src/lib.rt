// Theorems only: a book that is written is read back, and told apart by its text. See proofs/.
#![tactic(auto)]
