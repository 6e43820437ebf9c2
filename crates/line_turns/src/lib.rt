// The lines of a session that ask for no search, served on a state where it lies, in two lent tables: rule, one, withdraw, forget, the book's text, and a line that is no
// call. The answer is written into a lent table. Each has a frame of its own (`inline(never)`), so that the stack of a line is that of one call.
#![tactic(auto)]

ghost use Rattle.std.specs.Prelude.{ℕ, List, ℤ};
ghost use Rattle.std.proofs.Math.Option.{none};
ghost use Rattle.answer_text.specs.Answered.{AnswerHeld};
ghost use Rattle.line_turns.specs.Line.{TurnedBesideAt};

pub mod card; // a card or keep card whose call was made
pub mod change; // rule, one, withdraw, forget
pub mod query; // a query that was made
pub mod write; // the book's text

use answer_text::Answer;
use answer_text::refused::refuse;
use answer_text::shown::Shown;
use refusal::Refusal;

// The number of a line, and the card answered last before it.
#[derive(Clone, Copy)]
pub struct At {
    pub number: u64,
    pub shown: Shown,
}

// The card answered last, and the answer in the first bytes of the lent table.
#[derive(Clone, Copy)]
pub struct Turn {
    pub shown: Shown,
    pub length: usize,
}

// A line that is no call leaves the state, whatever that is.
#[inline(never)]
pub fn no_call(at: At, out: &mut Answer<'_>) -> Turn
    ensures held { AnswerHeld out.old out.new }
    ensures turned { (cells : List ℕ) (literals : List ℤ)
        → TurnedBesideAt
        cells
        literals
        none
        at.number
        at.shown
        result
        cells
        literals
        out.new.bytes.now }
{
    let length = refuse(out, Refusal::NotInLayout.number(), at.number);
    Turn {
        shown: at.shown,
        length,
    }
}
