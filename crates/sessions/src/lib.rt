// Definitions only, and what they compute: what a session prints. See specs/ and proofs/.
#![tactic(auto)]
