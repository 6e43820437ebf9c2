// Reading a line of a day, without its byte 10: its total, a place, a call at a place, the shares. Each function is equal to its definition in day_text,
// for every byte string.
#![tactic(auto)]

pub mod at;
pub mod place;
pub mod total;
