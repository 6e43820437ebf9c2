// A text's card under limits of the caller's, on a state in two lent tables: what the program `card` prints, and the card in a lent table for its pages to be
// printed. Paper 02, wish 8: "A book is opened with its own limits for numbers and rules, capped at these".
#![tactic(auto)]

pub mod making;
pub mod printing;
