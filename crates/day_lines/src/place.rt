// A request at a place: 38 or 22, or what its book answers under the place's share.
ghost use Rattle.std.specs.Prelude.{◌≡◌, ◌≤◌, false, length};
ghost use Rattle.sessions.specs.Session.{request_of};
ghost use Rattle.days.specs.Day.{outside};
ghost use Rattle.reader.specs.Requests.{from_line};
ghost use Rattle.answer_text.specs.Room.{answer_bytes};
ghost use Rattle.session_lines.specs.Asked.{LineIs};
ghost use Rattle.day_lines.specs.Served.{served_in, without_card, Overspent, PlaceServed};

use crate::Kept;
use crate::asked::{Kind, kind_of};
use crate::book::serve_book;
use answer_text::refused::write_refusal;
use answer_text::shown::no_card;
use reader::call::TABLE;
use refusal::Refusal;
use search_entry::workspace::Workspace;
use session_lines::asked::Asked;
use shares::BOOKS;

// The line of a request at a place, and the number of the day's line.
#[derive(Clone, Copy)]
pub struct Request<'a> {
    pub place: usize,
    pub asked: Asked<'a>,
    pub number: u64,
}

// No card was answered last at the place: the last one was refused.
fn drop_card(kept: &mut Kept, place: usize)
    requires { outside place ≡ false }
    ensures { kept.new ≡ without_card kept.old place }
{
    let mut shown = kept.shown;
    shown[place - 1] = no_card();
    kept.shown = shown;
}

// Accounts that do not stand refuse every call with 22, whatever its book; the book's text and a page are no calls.
// stays (no plainer): `answer_bytes ≤ length [u8]` is of what is lent behind the place of the answer, as for `serve_book`
// stays (no plainer): `LineIs (from_line Request.asked.bytes) Request.asked.line Request.asked.lits` is of what was read, as for `serve_book`
// stays (no plainer): the state, the workspace and the tables of the cards and the answer are lent, as for `serve_day_line`
fn serve_overspent(
    kept: &mut Kept,
    request: Request<'_>,
    cells: &mut [u16],
    literals: &mut [i16],
    work: &mut Workspace,
    cards: &mut [[u8; TABLE]; BOOKS],
    out: &mut [u8],
) -> usize
    requires { Overspent kept.old request.place
        × (answer_bytes ≤ length out.old)
        × LineIs (from_line request.asked.bytes.now) request.asked.line request.asked.lits.now }
    ensures { PlaceServed
        request.entry.number
        (served_in kept.old cells.old literals.old cards.old)
        request.entry.place
        (request_of request.entry.asked.bytes.now)
        (served_in kept.new cells.new literals.new cards.new)
        result
        out.new }
{
    match kind_of(request.asked.line) {
        Kind::Reads => serve_book(kept, request, 0, cells, literals, work, cards, out),
        Kind::Lists => {
            drop_card(kept, request.place);
            write_refusal(out, Refusal::Malformed.number(), request.number)
        }
        Kind::Calls => write_refusal(out, Refusal::Malformed.number(), request.number),
    }
}

// A place without a book, or outside 1 to 8, is judged before all else.
// stays (no plainer): as `serve_overspent`
pub fn serve_placed(
    kept: &mut Kept,
    request: Request<'_>,
    cells: &mut [u16],
    literals: &mut [i16],
    work: &mut Workspace,
    cards: &mut [[u8; TABLE]; BOOKS],
    out: &mut [u8],
) -> usize
    requires { (answer_bytes ≤ length out.old)
        × LineIs (from_line request.asked.bytes.now) request.asked.line request.asked.lits.now }
    ensures { PlaceServed
        request.entry.number
        (served_in kept.old cells.old literals.old cards.old)
        request.entry.place
        (request_of request.entry.asked.bytes.now)
        (served_in kept.new cells.new literals.new cards.new)
        result
        out.new }
{
    match kept.accounts.allowance(request.place) {
        Ok(share) => serve_book(kept, request, share, cells, literals, work, cards, out),
        Err(refusal) => {
            if refusal.number() == Refusal::Malformed.number() {
                return serve_overspent(kept, request, cells, literals, work, cards, out);
            }
            write_refusal(out, refusal.number(), request.number)
        }
    }
}
