// What a line asks for, served: the book's text, a page, or a call.
ghost use Rattle.std.specs.Prelude.{◌≡◌, ◌≤◌};
ghost use Rattle.qbf.specs.Ceiling.{highest_ceiling};
ghost use Rattle.sessions.specs.Session.{request_of};
ghost use Rattle.reader.specs.Requests.{from_line};
ghost use Rattle.answer_text.specs.Answered.{AnswerHeld};
ghost use Rattle.session_lines.specs.Asked.{LineIs};
ghost use Rattle.session_lines.specs.Line.{RequestTurnedAt};
ghost use Rattle.session_lines.specs.Sharing.{RequestSharedAt};

use crate::asked::{Asked, SessionLine};
use crate::rows::serve_page;
use answer_text::Answer;
use call_lines::made::serve_made;
use call_lines::{ReadCall, Shared, Under};
use line_turns::Turn;
use line_turns::write::{serve_whole, serve_write};
use reader::call::TABLE;
use reader::request::RequestLine;
use search_entry::workspace::Workspace;

// Only a call makes visits.
fn unsearched(turn: Turn) -> Shared
    ensures { result ≡ record { turn = turn; visits = 0 } }
{
    Shared { turn, visits: 0 }
}

// With the highest share it is the session's line.
// stays (no plainer): the state, the workspace and the tables of the card and the answer are lent, as for `serve_made`
// stays (no plainer): as `serve_made` of what was read
pub fn serve_request(
    cells: &mut [u16],
    literals: &mut [i16],
    work: &mut Workspace,
    under: Under,
    asked: Asked<'_>,
    cards: &mut [u8; TABLE],
    out: &mut Answer<'_>,
) -> Shared
    requires { LineIs (from_line asked.bytes.now) asked.line asked.lits.now }
    ensures held { AnswerHeld out.old out.new }
    ensures shared { RequestSharedAt
        under.share
        cells.old
        literals.old
        (request_of asked.entry.bytes.now)
        under.at.number
        under.at.shown
        cards.old
        result
        cells.new
        literals.new
        cards.new
        out.new.bytes.now }
    ensures alone { highest_ceiling ≤ under.share
        → RequestTurnedAt
        cells.old
        literals.old
        (request_of asked.entry.bytes.now)
        under.at.number
        under.at.shown
        cards.old
        result.turn
        cells.new
        literals.new
        cards.new
        out.new.bytes.now }
{
    match asked.line {
        SessionLine::Reads(RequestLine::Whole) => unsearched(serve_whole(
            cells, literals, under.at, out,
        )),
        SessionLine::Reads(RequestLine::Into(size)) => unsearched(serve_write(
            cells, literals, under.at, size, out,
        )),
        SessionLine::Reads(RequestLine::Page(k)) => unsearched(serve_page(under.at, k, cards, out)),
        SessionLine::Makes(read) => {
            let made = ReadCall {
                bytes: asked.bytes,
                read,
                lits: asked.lits,
            };
            serve_made(cells, literals, work, under, made, cards, out)
        }
    }
}
