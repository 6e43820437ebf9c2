// The calls on a book at a place of a day, for programs in other languages: eight books in two long slices share a total of visits. Whatever stands in the tables and in the
// accounts, every call has its answer. Paper 02, wish 12.
#![tactic(auto)]

pub mod changes; // the calls that ask for no search
mod entered; // what a call may use, and where its tables lie
pub mod loading; // a day that starts, a text that is opened, a book that is written
pub mod searches; // the calls that search
mod settled; // what a call that searched is told as, and charged
pub mod share; // what a call may still use
