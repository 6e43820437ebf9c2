// The text of a place, which is held whole.
ghost use Rattle.std.specs.Prelude.{◌≡◌, ◌≤◌, ◌-◌, eqb, length, set, List};
ghost use Rattle.layout.specs.Words.{Bytes};
ghost use Rattle.day_writer.specs.Room.{line_bytes};
ghost use Rattle.text_skip.specs.Skip.{skip_from};
ghost use Rattle.day_turns.specs.Turns.{OpensFrom, seen_in, TextWaits, TextTurned};
ghost use Rattle.day_turns.specs.Tables.{tables, in_tables, marked, PlaceOpened};

// stays (no plainer): `line_bytes ≤ length [u8]` is of a table that the day is lent whole; a type for it would be made for each of these calls, and taken off in each
// stays (no plainer): `Day.place.at ≤ Day.place.held` and `Day.place.held ≤ length [u8]` are asked once, by the turn; `Day.place.at + usize < Day.place.held` is of a line that was just found
use crate::lines::wait_line;
use crate::skip::behind;
use crate::told::tell_text;
use crate::{Day, Skipping, Stage, over};
use buffered_lines::{Line, Place};
use day_lines::Kept;
use day_reader::place::PlaceLine;
use edition_opening::{Editions, open};
use opening::text::RefusedAt;
use reader::text::book_end;
use shares::BOOKS;
use text_skip::{Skipped, skip};

fn with_byte(bytes: [u8; BOOKS], place: usize, byte: u8) -> [u8; BOOKS]
    ensures { result ≡ set bytes (place - 1) byte }
{
    let mut all = bytes;
    let i = place.saturating_sub(1);
    if i < BOOKS {
        all[i] = byte;
    }
    all
}

// A place has a book from here on, or none.
pub fn mark(kept: &mut Kept, place: usize, book: bool)
    ensures { kept.new ≡ marked kept.old place book }
{
    let mut accounts = kept.accounts;
    let books = with_byte(accounts.books, place, u8::from(book));
    accounts.books = books;
    kept.accounts = accounts;
}

// "a refused text leaving its place without a book"
fn open_at(
    t: PlaceLine,
    book: &[u8],
    kept: &mut Kept,
    cells: &mut [u16],
    literals: &mut [i16],
) -> Result<(), RefusedAt>
    ensures { PlaceOpened
        t
        book.now
        kept.old
        cells.old
        literals.old
        result
        kept.new
        cells.new
        literals.new }
{
    let of_cells = kept.rooms.cells_at(t.place, cells.len());
    let of_literals = kept.rooms.literals_at(t.place, literals.len());
    let opened = open(
        Editions::Both,
        book,
        t.limits,
        &mut cells[of_cells.from..of_cells.to],
        &mut literals[of_literals.from..of_literals.to],
    );
    mark(kept, t.place, opened.is_ok());
    opened
}

// The text is opened onto the tables of its place, and told.
// stays (no plainer): whose text it is, the text, and the tables that the day is lent, of each of which is said what it ends as
fn load(
    t: PlaceLine,
    book: &[u8],
    kept: &mut Kept,
    cells: &mut [u16],
    literals: &mut [i16],
    answer: &mut [u8],
) -> usize
    requires { line_bytes ≤ length answer.old }
    ensures { (cards : List Bytes) →
        OpensFrom
        in_tables
        t
        book.now
        (tables kept.old cells.old literals.old cards)
        result
        (tables kept.new cells.new literals.new cards)
        answer.new }
{
    let opened = open_at(t, book, kept, cells, literals);
    tell_text(t.place, opened, answer)
}

// How much of the last line of a text are bytes of the line `(end)`.
fn last_seen(text: &[u8]) -> usize
    ensures { result ≡ seen_in (skip_from 0 0 text.now) }
{
    match skip(text, 0) {
        Skipped::Ended(_) => 0,
        Skipped::Inside(seen) => seen,
    }
}

// More of the text is to be read; one that fills the buffer is too long.
fn wait_text(s: Day, t: PlaceLine, text: &mut [u8]) -> Day
    requires { (s.place.at ≤ s.place.held) × (s.place.held ≤ length text.old) }
    ensures { TextWaits
        (eqb (s.place.held - s.place.at) (length text.old))
        t
        s
        text.old
        result
        text.new }
{
    if s.place.held - s.place.at == text.len() {
        let held = &text[..s.place.held][s.place.at..];
        return Day {
            stage: Stage::Skip(Skipping {
                told: Some(t),
                seen: last_seen(held),
            }),
            place: Place {
                line: Line::Begun,
                at: 0,
                held: 0,
                number: behind(s.place.number, held),
            },
            length: 0,
            ..s
        };
    }
    wait_line(s, text)
}

// The text ends, or more of it is to be read, or it is all there is.
// stays (no plainer): whose text it is, what was read, and the tables that the day is lent, of each of which is said what it ends as
pub fn text_turn(
    s: Day,
    t: PlaceLine,
    ended: bool,
    text: &mut [u8],
    kept: &mut Kept,
    cells: &mut [u16],
    literals: &mut [i16],
    answer: &mut [u8],
) -> Day
    requires { (s.place.at ≤ s.place.held)
        × (s.place.held ≤ length text.old)
        × (line_bytes ≤ length answer.old) }
    ensures { (cards : List Bytes) →
        TextTurned
        in_tables
        ended
        t
        s
        text.old
        (tables kept.old cells.old literals.old cards)
        result
        text.new
        (tables kept.new cells.new literals.new cards)
        answer.new }
{
    let held = &text[..s.place.held][s.place.at..];
    match book_end(held) {
        Some(end) => {
            let book = &held[..end];
            Day {
                stage: Stage::Places,
                place: Place {
                    line: Line::Next,
                    at: s.place.at + book.len(),
                    held: s.place.held,
                    number: behind(s.place.number, book),
                },
                length: load(t, book, kept, cells, literals, answer),
                ..s
            }
        }
        None if ended => over(load(t, held, kept, cells, literals, answer)),
        None => wait_text(s, t, text),
    }
}
