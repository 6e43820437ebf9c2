// The rows that a call writes into the tables of a state.
#![tactic(auto)]

pub mod cells; // literals, and that no row stands
pub mod clauses; // an accepted rule
pub mod standing; // the tables of the clauses
