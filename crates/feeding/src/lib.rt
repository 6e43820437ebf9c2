// Definitions and theorems only: an input byte by byte, what is printed at each and what is held. See specs/ and proofs/.
#![tactic(auto)]
