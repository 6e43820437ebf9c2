// Tags put into a text and taken out of it, line by line, into a lent table. Paper 02, wish 13. Bytes past the table's end are only counted, so
// that the length alone decides refusal 31.
#![tactic(auto)]

mod bytes; // appending
mod line; // one line
mod tag; // a tag
pub mod text; // a whole text
