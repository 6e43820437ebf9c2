// Sets of numbers as rows of words in a lent table.
#![tactic(auto)]

pub mod rows; // members put in, rows cleared, compared and united
