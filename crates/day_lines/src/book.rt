// A request of the book at a place, under a share.
ghost use Rattle.std.specs.Prelude.{◌≡◌, ◌≤◌, true, false, length};
ghost use Rattle.sessions.specs.Session.{request_of};
ghost use Rattle.days.specs.Day.{outside};
ghost use Rattle.reader.specs.Requests.{from_line};
ghost use Rattle.answer_text.specs.Room.{answer_bytes};
ghost use Rattle.places.specs.Day.{booked};
ghost use Rattle.session_lines.specs.Asked.{LineIs};
ghost use Rattle.day_lines.specs.Book.{BookServed};

use crate::Kept;
use crate::place::Request;
use answer_text::Answer;
use call_lines::Under;
use line_turns::At;
use reader::call::TABLE;
use search_entry::workspace::Workspace;
use session_lines::request::serve_request;
use shares::BOOKS;

// The visits that it makes are charged to the place.
// stays (no plainer): the state, the workspace and the tables of the cards and the answer are lent, as for `serve_day_line`; the share was found by who calls
// stays (no plainer): `LineIs (from_line Request.asked.bytes) Request.asked.line Request.asked.lits` goes by cases, which no field keeps as a fact
// stays (no plainer): `answer_bytes ≤ length [u8]` is of what is lent behind the place of the answer, and a slice keeps no fact; `Answer` keeps it once it is lent on
pub fn serve_book(
    kept: &mut Kept,
    request: Request<'_>,
    share: u32,
    cells: &mut [u16],
    literals: &mut [i16],
    work: &mut Workspace,
    cards: &mut [[u8; TABLE]; BOOKS],
    out: &mut [u8],
) -> usize
    requires { (outside request.place ≡ false) × (booked kept.old.accounts.books request.place ≡ true) × (answer_bytes ≤ length out.old)
        × LineIs (from_line request.asked.bytes.now) request.asked.line request.asked.lits.now }
    ensures { BookServed
        request.entry.place
        request.entry.number
        share
        (request_of request.entry.asked.bytes.now)
        kept.old
        cells.old
        literals.old
        cards.old
        kept.new
        cells.new
        literals.new
        cards.new
        result
        out.new }
{
    let i = request.place - 1;
    let under = Under {
        at: At {
            number: request.number,
            shown: kept.shown[i],
        },
        share,
    };
    let of_cells = kept.rooms.cells_at(request.place, cells.len());
    let of_literals = kept.rooms.literals_at(request.place, literals.len());
    let mut answer = Answer { bytes: out };
    let served = serve_request(
        &mut cells[of_cells.from..of_cells.to],
        &mut literals[of_literals.from..of_literals.to],
        work,
        under,
        request.asked,
        &mut cards[i],
        &mut answer,
    );
    let mut accounts = kept.accounts;
    accounts.charge(request.place, served.visits);
    kept.accounts = accounts;
    let mut shown = kept.shown;
    shown[i] = served.turn.shown;
    kept.shown = shown;
    served.turn.length
}
