// Definitions and computed rows only: the text of a day of eight books. See specs/ and proofs/.
#![tactic(auto)]
