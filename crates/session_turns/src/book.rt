// The book at the start of the input.
ghost use Rattle.qbf.specs.Formula.{capped};
ghost use Rattle.layout.specs.Output.{refusal_text};
ghost use Rattle.refusal.specs.Refusal.{number_of};
ghost use Rattle.session_turns.specs.Turns.{Ends, BookOpened, BookClosed, BookTurned, WaitsForBook};

use crate::{Session, Stage, over};
use answer_text::book::print_refusal;
use answer_text::shown::no_card;
use buffered_lines::{Line, Place};
use edition_opening::{Editions, open};
use line_buffer::next_number;
use opening::text::RefusedAt;
use reader::text::{book_end, line_count};
use state::parts::Limits;

fn refused(at: RefusedAt, answer: &mut [u8]) -> Session
    ensures { Ends (refusal_text (number_of at.refusal) at.line) answer.old result answer.new }
{
    let written = print_refusal(at.refusal.number(), at.line, answer);
    over(written.length)
}

// The book, and how many bytes are held of it and of what stands behind it.
// stays (no plainer): what is opened, under which limits, and the tables that are lent, of each of which is said what it ends as
fn open_book(
    book: &[u8],
    held: usize,
    limits: Limits,
    cells: &mut [u16],
    literals: &mut [i16],
    answer: &mut [u8],
) -> Session
    ensures { BookOpened
        (capped limits.numbers limits.clauses)
        book.now
        held
        cells.old
        literals.old
        answer.old
        result
        cells.new
        literals.new
        answer.new }
{
    if let Err(at) = open(Editions::Both, book, limits, cells, literals) {
        return refused(at, answer);
    }
    let before = line_count(book);
    let place = Place {
        line: Line::Next,
        at: book.len(),
        held: held,
        number: next_number(before as u64),
    };
    let shown = no_card();
    Session {
        stage: Stage::Calls(place),
        length: 0,
        shown,
    }
}

// No line `(end)` stands in a book that is not read further: it is what there is.
fn close_book(
    text: &[u8],
    limits: Limits,
    cells: &mut [u16],
    literals: &mut [i16],
    answer: &mut [u8],
) -> Session
    ensures { BookClosed
        (capped limits.numbers limits.clauses)
        text.now
        cells.old
        literals.old
        answer.old
        result
        answer.new }
{
    match open(Editions::Both, text, limits, cells, literals) {
        Ok(()) => over(0),
        Err(at) => refused(at, answer),
    }
}

// More of the book is to be read behind what is held. Nothing is done with the tables of the state.
pub fn wait(held: usize) -> Session
    ensures { WaitsForBook held result }
{
    let shown = no_card();
    Session {
        stage: Stage::Book(held),
        length: 0,
        shown,
    }
}

// The book's end, or more of it is to be read; of the last bytes more cannot be read behind them.
// stays (no plainer): what was read, under which limits it is opened, and the tables that are lent, of each of which is said what it ends as
pub fn text_turn(
    text: &[u8],
    last: bool,
    limits: Limits,
    cells: &mut [u16],
    literals: &mut [i16],
    answer: &mut [u8],
) -> Session
    ensures { BookTurned
        (capped limits.numbers limits.clauses)
        text.now
        last
        cells.old
        literals.old
        answer.old
        result
        cells.new
        literals.new
        answer.new }
{
    match book_end(text) {
        Some(end) => open_book(&text[..end], text.len(), limits, cells, literals, answer),
        None if last => close_book(text, limits, cells, literals, answer),
        None => wait(text.len()),
    }
}
