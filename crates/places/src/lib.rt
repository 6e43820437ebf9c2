// Where the tables of eight books lie, in two lent slices, and the accounts of the day that they share. Paper 02, wish 12: "Up to eight books, in places 1 to 8".
#![tactic(auto)]

mod accounts; // who has used what
mod rooms; // where a place's tables begin and end

pub use accounts::Accounts;
pub use rooms::{Bounds, Rooms};
