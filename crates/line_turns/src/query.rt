// The line of a query that was made: swap, keep or unsettled with the visits, or refused. The card answered last is left.
ghost use Rattle.std.specs.Prelude.{ℕ, List, ℤ};
ghost use Rattle.std.proofs.Math.Option.{some};
ghost use Rattle.qbf.specs.Calls.{query};
ghost use Rattle.rule_calls.specs.ServesAt.{ServesAt};
ghost use Rattle.replies.specs.Replies.{ruling_said};
ghost use Rattle.answer_text.specs.Answered.{AnswerHeld};
ghost use Rattle.line_turns.specs.Line.{TurnedBesideAt};

use crate::{At, Turn};
use answer_text::Answer;
use answer_text::query::put_ruling;
use replies::Ruled;

pub fn query_turn(at: At, ruled: Ruled, out: &mut Answer<'_>) -> Turn
    ensures held { AnswerHeld out.old out.new }
    ensures turned { (cells : List ℕ) (literals : List ℤ) (ceiling : ℕ) (on off : List ℤ) (cells' : List ℕ) (literals' : List ℤ)
        → ServesAt
        cells
        literals
        (query ceiling on off)
        (ruling_said ruled.ruling ruled.visits)
        cells'
        literals'
        → TurnedBesideAt
        cells
        literals
        (some (query ceiling on off))
        at.number
        at.shown
        result
        cells'
        literals'
        out.new.bytes.now }
{
    let length = put_ruling(out, ruled.ruling, ruled.visits, at.number);
    Turn {
        shown: at.shown,
        length,
    }
}
