// The tables of a state as anyone may hand them in, lent as slices: their check (refusal 22), and what is derived from them.
#![tactic(auto)]

pub mod cells;
pub mod declare;
pub mod kinds;
mod levels;
pub mod numbers;
pub mod parts;
pub mod prefix;
mod room;
mod rows;
