// The calls query, card and keep card on the tables of a state that was checked, whatever form it lies in. The tables are only read: what is learned is left
// on shelves, from which whoever lends the state writes it back.
#![tactic(auto)]

pub mod asked; // what a query or a closest reading asks
pub mod back; // what is learned, written back
pub mod card;
pub mod checked; // the state
mod given; // what a search reads of it
mod open; // the plain search for a query with open flags
pub mod query;
