// What a day prints beside the answers of its books, into a lent table: the place of an answer, a book that was opened, the shares.
#![tactic(auto)]

pub mod lines;
pub mod place;
pub mod shares_line;
