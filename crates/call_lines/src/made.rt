// A line that is a call.
ghost use Rattle.std.specs.Prelude.{◌≤◌};
ghost use Rattle.qbf.specs.Ceiling.{highest_ceiling};
ghost use Rattle.layout.specs.Session.{call_of};
ghost use Rattle.reader.specs.Calls.{CallUnder};
ghost use Rattle.answer_text.specs.Answered.{AnswerHeld};
ghost use Rattle.line_turns.specs.Line.{TurnedAt};
ghost use Rattle.call_lines.specs.Sharing.{SharedAt};

use crate::call::{Spelled, serve_call};
use crate::share::told_under;
use crate::{ReadCall, Shared, Under};
use answer_text::Answer;
use reader::call::TABLE;
use search_entry::workspace::Workspace;

// With the highest share it is the session's line.
// stays (no plainer): the state, the workspace and the tables of the card and the answer are lent, as for `serve_call`
// stays (no plainer): what was read goes by cases, which a field of `ReadCall` cannot keep as a fact
pub fn serve_made(
    cells: &mut [u16],
    literals: &mut [i16],
    work: &mut Workspace,
    under: Under,
    made: ReadCall<'_>,
    cards: &mut [u8; TABLE],
    out: &mut Answer<'_>,
) -> Shared
    requires { CallUnder made.read.ceiling (call_of made.bytes.now) made.read.line made.lits.now }
    ensures held { AnswerHeld out.old out.new }
    ensures shared { SharedAt
        under.share
        cells.old
        literals.old
        (call_of made.entry.bytes.now)
        under.at.number
        under.at.shown
        cards.old
        result
        cells.new
        literals.new
        cards.new
        out.new.bytes.now }
    ensures alone { highest_ceiling ≤ under.share
        → TurnedAt
        cells.old
        literals.old
        (call_of made.entry.bytes.now)
        under.at.number
        under.at.shown
        cards.old
        result.turn
        cells.new
        literals.new
        cards.new
        out.new.bytes.now }
{
    let own = made.read.ceiling;
    let lits = made.lits;
    let spelled = Spelled {
        call: made.read.line,
        lits,
        ceiling: shares::limit(own, under.share),
    };
    let called = serve_call(cells, literals, work, under.at, spelled, cards, out);
    told_under(called, own, under.share, under.at.number, out)
}
