// Writing into a lent table: bytes, words, numbers, the lines of a card and the answers of a session. Each function appends one text of
// layout: what stood before is kept.
#![tactic(auto)]

pub mod answer;
pub mod bytes;
pub mod card;
pub mod line;
pub mod number;

// A lent table and how many of its first bytes are written.
#[derive(Drop)]
pub struct Output<'a> {
    pub bytes: &'a mut [u8],
    pub at: usize,
}
