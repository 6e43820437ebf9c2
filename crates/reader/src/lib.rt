// Reading a line of a text: words, numbers, literals and the form or the call that they make. Each function is equal to its
// definition in layout, for every byte string.
#![tactic(auto)]

pub mod brackets;
pub mod call;
pub mod ceiling; // a call's line with its ceiling
pub mod ending; // an item that may end it
pub mod item;
pub mod items;
pub mod keyword;
pub mod limit; // what a number may be
pub mod line;
pub mod number;
pub mod request; // the book's text, a page
pub mod sized; // a call's line with the size of its table
pub mod text;
pub mod word;
