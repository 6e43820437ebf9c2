// Definitions only, and what they compute: a book written back as text. See specs/ and proofs/.
#![tactic(auto)]
