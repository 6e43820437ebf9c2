// One line behind the loading of a day, on the tables where its eight books lie: the call of a session at a place, or the shares. Its answer is written into a lent table.
// The lines of the card answered last at each place stay in a table of their own, from which `(at 1 (page 1))` prints.
#![tactic(auto)]

ghost use Rattle.std.specs.Prelude.{◌≤◌};
ghost use Rattle.std.proofs.Math.Option.{some};
ghost use Rattle.writer.specs.Wrote.{Wrote};
ghost use Rattle.day_text.specs.Output.{at_text};
ghost use Rattle.day_lines.specs.Served.{served_in, LineServed};

use answer_text::refused::write_refusal;
use answer_text::shown::Shown;
use day_reader::at::read_at;
use day_reader::total::is_shares;
use day_writer::lines::{write_at, write_shares};
use place::{Request, serve_placed};
use places::{Accounts, Rooms};
use reader::call::TABLE;
use refusal::Refusal;
use search_entry::workspace::Workspace;
use session_lines::asked::{Asked, read_line};
use shares::BOOKS;

mod asked; // what the line at a place asks for
mod book; // the book of a place
mod place; // a place with a book, or none

// Where the books lie, what was used of the day's total, and the card answered last at each place.
#[derive(Clone, Copy)]
pub struct Kept {
    pub rooms: Rooms,
    pub accounts: Accounts,
    pub shown: [Shown; BOOKS],
}

// A line without its byte 10, and its number.
#[derive(Clone, Copy)]
pub struct DayLine<'a> {
    pub bytes: &'a [u8],
    pub number: u64,
}

// The place of an answer, on a line of its own, has at most so many bytes.
const PLACE: usize = 26;

// No answer of a day is longer.
pub const ANSWER: usize = PLACE + answer_text::ANSWER;

// The place of the answer that follows, and how many bytes it has.
fn write_place(out: &mut [u8; ANSWER], place: usize) -> usize
    ensures wrote { Wrote out.old 0 (at_text place) out.new result }
    ensures few { result ≤ 26 }
{
    write_at(out, place as u64)
}

// How many bytes of the table the answer has. An empty line is answered as a line that is too long to be one.
// stays (no plainer): the state, the workspace and the tables of the cards and the answer are lent, as for `session_lines::serve_line`
pub fn serve_day_line(
    kept: &mut Kept,
    line: DayLine<'_>,
    cells: &mut [u16],
    literals: &mut [i16],
    work: &mut Workspace,
    cards: &mut [[u8; TABLE]; BOOKS],
    out: &mut [u8; ANSWER],
) -> usize
    ensures { LineServed
        line.entry.number
        (served_in kept.old cells.old literals.old cards.old)
        (some line.entry.bytes.now)
        (served_in kept.new cells.new literals.new cards.new)
        result
        out.new }
{
    if is_shares(line.bytes) {
        return write_shares(out, kept.accounts.used, kept.accounts.total);
    }
    let Some(at) = read_at(line.bytes) else {
        return write_refusal(out, Refusal::NotInLayout.number(), line.number);
    };
    let mut lits = [0i16; tables::BY_NUMBER];
    let Some(read) = read_line(at.call, &mut lits) else {
        return write_refusal(out, Refusal::NotInLayout.number(), line.number);
    };
    let request = Request {
        place: at.place,
        asked: Asked {
            bytes: at.call,
            line: read,
            lits: &lits,
        },
        number: line.number,
    };
    let before = write_place(out, at.place);
    let length = serve_placed(
        kept,
        request,
        cells,
        literals,
        work,
        cards,
        &mut out[before..],
    );
    before + length
}
