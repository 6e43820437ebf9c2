// A call that was read from a line, served on a state where it lies, in two lent tables, with a lent workspace: under the visits that it may make, which a session does not
// limit and a day does. The answer is written into a lent table. Each call has a frame of its own (`inline(never)`), so that the stack of a line is that of one call.
#![tactic(auto)]

mod asked; // the flags of a query or a closest reading
mod call; // the call that was read
mod card;
pub mod made; // a line that is a call
mod nearest;
mod query;
mod share; // the visits that it may make
mod stop;

use line_turns::{At, Turn};
use reader::ceiling::CeiledLine;

// A line without its byte 10, the call that was read from it, and the table of its literals.
#[derive(Clone, Copy)]
pub struct ReadCall<'a> {
    pub bytes: &'a [u8],
    pub read: CeiledLine,
    pub lits: &'a [i16; tables::BY_NUMBER],
}

// The number of a line and the card answered last before it, and the visits that its call may make: the highest ceiling in a session, or the share of a place.
#[derive(Clone, Copy)]
pub struct Under {
    pub at: At,
    pub share: u32,
}

// What a call left and wrote under its ceiling, whether it was stopped there, and the visits that it made.
#[derive(Clone, Copy)]
struct Called {
    turn: Turn,
    stopped: bool,
    visits: u64,
}

// .. under a share; refused calls have their visits too.
#[derive(Clone, Copy)]
pub struct Shared {
    pub turn: Turn,
    pub visits: u64,
}
