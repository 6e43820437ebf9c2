// What a call served by code owes, and demand 3 over lists of such calls: this crate has no code. See specs/ and proofs/.
#![tactic(auto)]
