// Definitions and theorems only: the text of a formula and the text of the answers. See specs/ and proofs/.
#![tactic(auto)]
