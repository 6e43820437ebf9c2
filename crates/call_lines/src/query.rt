// The line of a query: swap, keep or unsettled with the visits, or refused.
ghost use Rattle.std.proofs.Math.Option.{some};
ghost use Rattle.qbf.specs.Calls.{query};
ghost use Rattle.answer_text.specs.Answered.{AnswerHeld};
ghost use Rattle.call_lines.specs.Calling.{CalledBesideAt};

use crate::Called;
use crate::stop::is_stop;
use answer_text::Answer;
use asking::asked::Asked;
use line_turns::At;
use line_turns::query::query_turn;
use search_entry::workspace::Workspace;

// stays (no plainer): the six are the state and the workspace, what is asked at which line, and where its answer is written
#[inline(never)]
pub fn serve_query(
    cells: &mut [u16],
    literals: &mut [i16],
    work: &mut Workspace,
    at: At,
    asked: Asked<'_>,
    out: &mut Answer<'_>,
) -> Called
    ensures held { AnswerHeld out.old out.new }
    ensures called { CalledBesideAt
        cells.old
        literals.old
        (some (query asked.entry.ceiling asked.entry.on.now asked.entry.off.now))
        at.number
        at.shown
        result
        cells.new
        literals.new
        out.new.bytes.now }
{
    let ruled = search_calls::query(cells, literals, work, asked);
    let stopped = is_stop(ruled.ruling);
    let turn = query_turn(at, ruled, out);
    Called {
        turn,
        stopped,
        visits: ruled.visits,
    }
}
