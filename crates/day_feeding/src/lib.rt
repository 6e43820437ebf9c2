// Definitions and theorems only: a day's input byte by byte, what is printed at each and what is held. See specs/ and proofs/.
#![tactic(auto)]
