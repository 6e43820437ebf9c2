// A line of a QDIMACS text, without its byte 10. Paper 02, wish 1.
#![tactic(auto)]

mod header;
mod item;
mod items;
pub mod line;
mod word;
