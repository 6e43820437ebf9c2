// The line of a card or keep card: its lines and visits, or refused.
ghost use Rattle.std.specs.Prelude.{◌++◌, ◌≤◌, length};
ghost use Rattle.std.proofs.Math.Option.{some};
ghost use Rattle.qbf.specs.Calls.{card_of};
ghost use Rattle.layout.specs.Words.{Bytes};
ghost use Rattle.layout.specs.Program.{table_bytes};
ghost use Rattle.answer_text.specs.declared.shown.Shown.{Shown};
ghost use Rattle.answer_text.specs.Answered.{AnswerHeld};
ghost use Rattle.call_lines.specs.Calling.{CalledAt};

use crate::Called;
use crate::stop::is_stop;
use answer_text::Answer;
use card_answers::names::names_at;
use card_answers::{Filled, Sought};
use line_turns::card::card_turn;
use search_entry::workspace::Workspace;

// A card in a lent table.
// stays (no plainer): the seven are the state and the workspace, what is sought in which table at which line, and where its answer is written
// stays (no plainer): `length [u8] ≤ table_bytes` is of a table that is lent to be written, and a slice keeps no fact; `Filled` keeps it once it is shared
#[inline(never)]
pub fn serve_card(
    cells: &mut [u16],
    literals: &mut [i16],
    work: &mut Workspace,
    sought: Sought,
    table: &mut [u8],
    line: u64,
    out: &mut Answer<'_>,
) -> Called
    requires { length table.old ≤ table_bytes }
    ensures held { AnswerHeld out.old out.new }
    ensures called { (s : Shown) (t after : Bytes)
        → CalledAt
        cells.old
        literals.old
        (some (card_of sought.yes sought.ceiling (length table.old)))
        line
        s
        t
        result
        cells.new
        literals.new
        (table.new ++ after)
        out.new.bytes.now }
{
    let listed = search_calls::card_of(cells, literals, work, table, sought.yes, sought.ceiling);
    let stopped = is_stop(listed.lines);
    let names = names_at(cells);
    let filled = Filled { sought, table };
    let turn = card_turn(names, filled, listed, line, out);
    Called {
        turn,
        stopped,
        visits: listed.visits,
    }
}
