// One line of a session, or at a place of a day, on a state where it lies, in two lent tables: its request is read and served, and the answer written into a lent table.
// The lines of the card answered last stay in a table of their own, from which `(page 1)` prints.
#![tactic(auto)]

ghost use Rattle.std.specs.Prelude.{◌≡◌};
ghost use Rattle.session_lines.specs.Line.{ServesLineAt, spoken_turn};

use answer_text::shown::Shown;
use answer_text::{ANSWER, Answer};
use asked::{Asked, read_line};
use book_writer::NONE;
use call_lines::Under;
use line_turns::{At, Turn, no_call};
use reader::call::TABLE;
use refusal::Refusal;
use request::serve_request;
use search_entry::workspace::Workspace;

pub mod asked; // what a line asks for
pub mod request; // the book's text, a page, or a call
mod rows; // a page of the card answered last

// The length of a text as `book_writer::Written` says, and the card answered last. A lent table of fewer bytes than answer_text::ANSWER is too short, whatever the
// answer would need: it is zeroed.
// stays (C): the header declares the number of the refusal, 0 for none, beside the length
#[repr(C)]
#[derive(Clone, Copy)]
pub struct Spoken {
    pub refusal: u16,
    pub length: usize,
    pub shown: Shown,
}

// A turn whose answer was written.
fn answered(turn: Turn) -> Spoken
    ensures { (result.refusal ≡ 0) × (spoken_turn result ≡ turn) }
{
    Spoken {
        refusal: NONE,
        length: turn.length,
        shown: turn.shown,
    }
}

// The line of a session, without its byte 10. In a table of fewer than answer_text::ANSWER bytes nothing is served.
// stays (no plainer): the state, the workspace and the tables of the card and the answer are lent, as for `call_lines::made::serve_made`; C gives the line and what is
// before it
pub fn serve_line(
    cells: &mut [u16],
    literals: &mut [i16],
    work: &mut Workspace,
    at: At,
    line: &[u8],
    cards: &mut [u8; TABLE],
    out: &mut [u8],
) -> Spoken
    ensures { ServesLineAt
        cells.old
        literals.old
        line.now
        at.number
        at.shown
        cards.old
        out.old
        result
        cells.new
        literals.new
        cards.new
        out.new }
{
    if out.len() < ANSWER {
        cover::clear(out);
        return Spoken {
            refusal: Refusal::TableTooShort.number(),
            length: 0,
            shown: at.shown,
        };
    }
    let mut answer = Answer { bytes: out };
    let mut lits = [0i16; tables::BY_NUMBER];
    let Some(read) = read_line(line, &mut lits) else {
        return answered(no_call(at, &mut answer));
    };
    let under = Under {
        at,
        share: tables::HIGHEST_CEILING,
    };
    let asked = Asked {
        bytes: line,
        line: read,
        lits: &lits,
    };
    let turn = serve_request(cells, literals, work, under, asked, cards, &mut answer).turn;
    answered(turn)
}
