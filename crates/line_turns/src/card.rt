// The line of a card or keep card whose call was made: its lines, or its refusal; and the card that it leaves.
ghost use Rattle.std.specs.Prelude.{◌++◌};
ghost use Rattle.std.proofs.Math.Option.{some};
ghost use Rattle.layout.specs.Words.{Bytes};
ghost use Rattle.answer_text.specs.declared.shown.Shown.{Shown};
ghost use Rattle.answer_text.specs.Answered.{AnswerHeld};
ghost use Rattle.card_answers.specs.Lines.{card_for};
ghost use Rattle.line_turns.specs.Line.{TurnedAt};
ghost use Rattle.line_turns.specs.Cards.{CardServed};

use crate::Turn;
use answer_text::Answer;
use answer_text::shown::card_told;
use card_answers::Filled;
use card_answers::card::put_listed;
use card_answers::names::Names;
use replies::Listed;

// The names are those of the state that the call left.
// stays (no plainer): the five are what the call answered, what it was asked, and where its answer is written
pub fn card_turn(
    names: Names<'_>,
    filled: Filled<'_>,
    listed: Listed,
    line: u64,
    out: &mut Answer<'_>,
) -> Turn
    requires { CardServed names filled listed }
    ensures held { AnswerHeld out.old out.new }
    ensures turned { (h : CardServed names.entry filled.entry listed) (s : Shown) (t after : Bytes)
        → TurnedAt
        h.cells
        h.literals
        (some (card_for filled.entry))
        line
        s
        t
        result
        h.cells'
        h.literals'
        (filled.entry.table.now ++ after)
        out.new.bytes.now }
{
    let shown = card_told(names.free, listed.lines, filled.table.len());
    let length = put_listed(out, names, filled, listed, line);
    Turn { shown, length }
}
