// What `book_calls` and `day_calls` have for programs in other languages, as a static library: each export calls the function of its name, and promises the same of what it
// is handed: where that function takes a struct the parameters and the clauses here are of its fields.
#![tactic(auto)]

pub mod changes; // the calls that ask for no search
pub mod day; // eight books at the places of a day
pub mod lines; // a line of a session
pub mod print; // a text's card, and a page of a card
pub mod searches; // the calls that search
pub mod sizes; // how long the tables have to be
pub mod text; // a book opened and written, and a text converted
