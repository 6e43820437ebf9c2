// Definitions only, and what they compute: books that come as QDIMACS. See specs/ and proofs/.
#![tactic(auto)]
