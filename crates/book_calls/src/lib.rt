// The calls on a book under limits of its own, for programs in other languages: a state is two lent tables, cells and literals, and an answer plain
// numbers. Whatever stands in the tables, a malformed state is refused with 22. Paper 02, wish 8.
#![tactic(auto)]

pub mod changes; // the calls that ask for no search
pub mod lines; // a line of a session
pub mod print; // a text's card, and a page of a card
pub mod searches; // the calls that search
pub mod sizes; // how long the tables have to be
pub mod text; // a book opened and written, and a text converted
