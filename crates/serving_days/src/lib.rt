// Definitions and theorems only: what a call at a place of a day owes. This crate has no code. See specs/ and proofs/.
#![tactic(auto)]
