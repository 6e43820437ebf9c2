// Definitions and theorems only: what the programs judge that read their input whole. See specs/ and proofs/.
#![tactic(auto)]
