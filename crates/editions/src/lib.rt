// Definitions only, and what they compute: exactly-one lines, both editions, and converting one into the other. See specs/ and proofs/.
#![tactic(auto)]
