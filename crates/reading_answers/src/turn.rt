// The line of a closest reading whose call was made: the reading, or its refusal; and the card that it leaves.
ghost use Rattle.std.specs.Prelude.{◌++◌, length};
ghost use Rattle.std.proofs.Math.Option.{some};
ghost use Rattle.qbf.specs.Calls.{closest};
ghost use Rattle.layout.specs.Words.{Bytes};
ghost use Rattle.answer_text.specs.declared.shown.Shown.{Shown};
ghost use Rattle.answer_text.specs.Answered.{AnswerHeld};
ghost use Rattle.line_turns.specs.Line.{TurnedAt};
ghost use Rattle.reading_answers.specs.Served.{NearestServed};

use crate::{card_found, put_nearest};
use answer_text::Answer;
use answer_text::shown::card_told;
use card_answers::names::Names;
use closest_call::Nearest;
use line_turns::Turn;

// What the call answered, the reading that it wrote, and the table in which the lines of its card stand.
#[derive(Clone, Copy)]
pub struct Found<'a> {
    pub nearest: Nearest,
    pub reading: &'a [u8; tables::MOST_FREE],
    pub table: &'a [u8],
}

// The names are those of the state that the call left.
pub fn nearest_turn(names: Names<'_>, found: Found<'_>, line: u64, out: &mut Answer<'_>) -> Turn
    requires { NearestServed names found }
    ensures held { AnswerHeld out.old out.new }
    ensures turned { (h : NearestServed names.entry found.entry) (s : Shown) (t after : Bytes)
        → TurnedAt
        h.cells
        h.literals
        (some (closest h.ceiling (length found.entry.table.now) h.on h.off))
        line
        s
        t
        result
        h.cells'
        h.literals'
        (found.entry.table.now ++ after)
        out.new.bytes.now }
{
    let shown = card_told(names.free, card_found(found.nearest), found.table.len());
    let length = put_nearest(out, names, found.reading, found.nearest, line);
    Turn { shown, length }
}
