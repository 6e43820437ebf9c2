// The call that was read from a line, served. Its literals stand in a table with one cell more than a reading may have flags: those that do not fit would change no
// answer.
ghost use Rattle.std.specs.Prelude.{◌≡◌, false, suc, length};
ghost use Rattle.std.proofs.Math.Option.{Option};
ghost use Rattle.qbf.specs.Formula.{most_free};
ghost use Rattle.qbf.specs.Calls.{Call};
ghost use Rattle.reader.specs.Calls.{CallUnder};
ghost use Rattle.answer_text.specs.Answered.{AnswerHeld};
ghost use Rattle.call_lines.specs.Calling.{CalledAt};
ghost use Rattle.call_lines.specs.Small.{Small};
ghost use Rattle.call_lines.specs.Flags.{ToldApart};

use crate::Called;
use crate::asked::NamedFlags;
use crate::card::serve_card;
use crate::nearest::serve_closest;
use crate::query::serve_query;
use answer_text::Answer;
use card_answers::Sought;
use line_turns::change::{Change, serve_change};
use line_turns::{At, Turn};
use named::named;
use reader::call::{CallLine, TABLE};
use reader::line::kept;
use search_entry::workspace::Workspace;

// The call that a line spells, the table of its literals, and its ceiling.
#[derive(Clone, Copy)]
pub struct Spelled<'a> {
    pub call: CallLine,
    pub lits: &'a [i16],
    pub ceiling: u32,
    pub ghost wide: { length lits.now ≡ suc most_free },
}

// Of the n literals by which a query or a closest reading names flags, those that the table holds, told apart by their signs.
fn told_apart(spelled: Spelled<'_>, n: usize) -> NamedFlags
    ensures { ToldApart n spelled.entry.lits.now result }
{
    let k = kept(n);
    let lits = &spelled.lits[..k];
    let mut on = [0i16; tables::BY_NUMBER];
    let mut off = [0i16; tables::BY_NUMBER];
    let ons = kept(named(lits, true, &mut on));
    let offs = kept(named(lits, false, &mut off));
    NamedFlags { on, ons, off, offs }
}

// A call that searches nothing makes no visits.
fn unsearched(turn: Turn) -> Called
    ensures { result ≡ record { turn = turn; stopped = false; visits = 0 } }
{
    Called {
        turn,
        stopped: false,
        visits: 0,
    }
}

// stays (no plainer): the state, the workspace and the tables of the card and the answer are lent on, to each call those that it takes
#[inline(never)]
pub fn serve_call(
    cells: &mut [u16],
    literals: &mut [i16],
    work: &mut Workspace,
    at: At,
    spelled: Spelled<'_>,
    cards: &mut [u8; TABLE],
    out: &mut Answer<'_>,
) -> Called
    requires { Small spelled.call }
    ensures held { AnswerHeld out.old out.new }
    ensures called { (c : Option Call)
        → CallUnder spelled.entry.ceiling c spelled.entry.call spelled.entry.lits.now
        → CalledAt
        cells.old
        literals.old
        c
        at.number
        at.shown
        cards.old
        result
        cells.new
        literals.new
        cards.new
        out.new.bytes.now }
{
    let lits = spelled.lits;
    let ceiling = spelled.ceiling;
    let line = at.number;
    match spelled.call {
        CallLine::Rule(n) => {
            let k = kept(n);
            unsearched(serve_change(cells, literals, at, Change::Rule(&lits[..k]), out))
        }
        CallLine::Query(n) => {
            let flags = told_apart(spelled, n);
            serve_query(cells, literals, work, at, flags.asked(ceiling), out)
        }
        CallLine::Card(size) => {
            let sought = Sought { yes: true, ceiling };
            serve_card(cells, literals, work, sought, &mut cards[..size], line, out)
        }
        CallLine::KeepCard(size) => {
            let sought = Sought {
                yes: false,
                ceiling,
            };
            serve_card(cells, literals, work, sought, &mut cards[..size], line, out)
        }
        CallLine::Forget => unsearched(serve_change(cells, literals, at, Change::Forget, out)),
        CallLine::Withdraw => unsearched(serve_change(cells, literals, at, Change::Withdraw, out)),
        CallLine::One(n) => {
            let k = kept(n);
            unsearched(serve_change(cells, literals, at, Change::One(&lits[..k]), out))
        }
        CallLine::Closest(n, size) => {
            let flags = told_apart(spelled, n);
            serve_closest(
                cells,
                literals,
                work,
                flags.asked(ceiling),
                &mut cards[..size],
                line,
                out,
            )
        }
    }
}
