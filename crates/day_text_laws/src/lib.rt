// Theorems about the text of a day: its texts are a session's books, its accounts always stand, and a book answers as in a session. See proofs/.
#![tactic(auto)]
