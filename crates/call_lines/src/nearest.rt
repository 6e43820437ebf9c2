// The line of a closest reading: the reading, in how many flags it differs, and the count of the lines and the visits of its card, or refused.
ghost use Rattle.std.specs.Prelude.{◌++◌, length};
ghost use Rattle.std.proofs.Math.Option.{some};
ghost use Rattle.qbf.specs.Calls.{closest};
ghost use Rattle.layout.specs.Words.{Bytes};
ghost use Rattle.answer_text.specs.declared.shown.Shown.{Shown};
ghost use Rattle.answer_text.specs.Answered.{AnswerHeld};
ghost use Rattle.call_lines.specs.Calling.{CalledAt};

use crate::Called;
use crate::stop::is_stop;
use answer_text::Answer;
use asking::asked::Asked;
use card_answers::names::names_at;
use reading_answers::turn::{Found, nearest_turn};
use search_entry::workspace::Workspace;

// A closest reading from a card in a lent table.
// stays (no plainer): the seven are the state and the workspace, what is asked of a card in which table at which line, and where its answer is written
#[inline(never)]
pub fn serve_closest(
    cells: &mut [u16],
    literals: &mut [i16],
    work: &mut Workspace,
    asked: Asked<'_>,
    table: &mut [u8],
    line: u64,
    out: &mut Answer<'_>,
) -> Called
    ensures held { AnswerHeld out.old out.new }
    ensures called { (s : Shown) (t after : Bytes)
        → CalledAt
        cells.old
        literals.old
        (some (closest asked.entry.ceiling (length table.old) asked.entry.on.now asked.entry.off.now))
        line
        s
        t
        result
        cells.new
        literals.new
        (table.new ++ after)
        out.new.bytes.now }
{
    let mut reading = [tables::OPEN; tables::MOST_FREE];
    let nearest = search_calls::closest(cells, literals, work, asked, table, &mut reading);
    let stopped = is_stop(nearest.told);
    let names = names_at(cells);
    let found = Found {
        nearest,
        reading: &reading,
        table,
    };
    let turn = nearest_turn(names, found, line, out);
    Called {
        turn,
        stopped,
        visits: nearest.visits,
    }
}
