// An answer in plain numbers, as programs in other languages take it. The state stays with the caller.
#![tactic(auto)]

ghost use Rattle.std.specs.Prelude.{◌≡◌, List, [], ℕ};
ghost use Rattle.serving.specs.Serves.{told};
ghost use Rattle.rule_calls.specs.ServesAt.{change_said};
ghost use Rattle.replies.specs.Replies.{ruling_said, card_said};
ghost use Rattle.reply_numbers.specs.Answers.{reply_said, ClosestTold};

use closest_call::Nearest;
use refusal::{Refusal, number_if};
use replies::{Listed, Ruled};

// A refusal of 0 is none; a verdict is 1 for keep, 2 for swap and 3 for unsettled, 0 where the call is no query.
// stays (C): other languages read the refusal and the verdict as numbers beside the counts
#[repr(C)]
#[derive(Clone, Copy)]
pub struct Reply {
    pub refusal: u16,
    pub verdict: u16,
    pub lines: usize,
    pub visits: u64,
}

// Of a closest reading: in how many variables it differs.
// stays (C): other languages read the refusal as a number beside the counts
#[repr(C)]
#[derive(Clone, Copy)]
pub struct Closest {
    pub refusal: u16,
    pub differs: usize,
    pub lines: usize,
    pub visits: u64,
}

// Of a call that changes the rules or the store.
pub fn of_change(change: Result<(), Refusal>) -> Reply
    ensures { reply_said result [] ≡ told (change_said change) }
{
    Reply {
        refusal: number_if(change.err()),
        verdict: 0,
        lines: 0,
        visits: 0,
    }
}

// Of a query.
impl From<Ruled> for Reply {
    ghost from_gives = { λ asked r. reply_said r [] ≡ told (ruling_said asked.ruling asked.visits) };

    fn from(asked: Ruled) -> Reply {
        let verdict = match asked.ruling {
            Ok(ruling) => ruling.number(),
            Err(_) => 0,
        };
        Reply {
            refusal: number_if(asked.ruling.err()),
            verdict: verdict,
            lines: 0,
            visits: asked.visits,
        }
    }
}

// Of a card or keep card.
impl From<Listed> for Reply {
    ghost from_gives = { λ shown r. (tb : List ℕ) → reply_said r tb ≡ told (card_said shown.lines shown.visits tb) };

    fn from(shown: Listed) -> Reply {
        Reply {
            refusal: number_if(shown.lines.err()),
            verdict: 0,
            lines: shown.lines.unwrap_or(0),
            visits: shown.visits,
        }
    }
}

// Of a closest reading.
impl From<Nearest> for Closest {
    ghost from_gives = { λ found r. ClosestTold found r };

    fn from(found: Nearest) -> Closest {
        Closest {
            refusal: number_if(found.told.err()),
            differs: found.told.unwrap_or(0),
            lines: found.lines,
            visits: found.visits,
        }
    }
}
