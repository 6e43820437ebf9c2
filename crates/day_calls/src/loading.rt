// A day that starts, and the texts of its books; a book at a place written as text. Paper 02, wish 12.
ghost use Rattle.std.specs.Prelude.{◌≡◌, true, cond, List, [], ℕ, ℤ, length};
ghost use Rattle.qbf.specs.Formula.{capped};
ghost use Rattle.qbf.specs.Card.{zero_table};
ghost use Rattle.editions.specs.Opening.{both, open_editions};
ghost use Rattle.days.specs.Day.{loaded, outside};
ghost use Rattle.shares.specs.Shares.{share_of};
ghost use Rattle.places.specs.declared.rooms.Rooms.{Rooms as Lying};
ghost use Rattle.places.specs.Day.{booked, day_in};
ghost use Rattle.day_calls.specs.Opens.{begun, OpensAtPlace, WritesAtPlace};

use crate::entered::enter;
use book_calls::text::{Opened, bullacetop_book_write};
use book_writer::Written;
use edition_opening::{Editions, open};
use opening::text::NO_LINE;
use places::{Accounts, Rooms};
use refusal::Refusal;
use shares::BOOKS;
use state::parts::Limits;

// "They are loaded together when a day starts .. and all visits used are then 0": no place has a book yet, whatever stands in its tables.
pub fn bullacetop_day_begin(accounts: &mut Accounts, total: u32)
    ensures begins { accounts.new ≡ begun total }
    ensures day { (R : Lying) (cells : List ℕ) (literals : List ℤ) → day_in R accounts.new cells literals ≡ loaded total [] }
{
    accounts.total = total;
    accounts.used = [0; BOOKS];
    accounts.books = [0; BOOKS];
}

fn is_outside(place: usize) -> bool
    ensures { result ≡ outside place }
{
    if place == 0 {
        return true;
    }
    BOOKS < place
}

// A text of edition 1 or 2, opened at a place; "a refused text leaving its place without a book".
// stays (C): the accounts, where the places lie, the two slices and the place, as for a call, with the text and its limits
pub fn bullacetop_day_open(
    accounts: &mut Accounts,
    rooms: &Rooms,
    cells: &mut [u16],
    literals: &mut [i16],
    place: usize,
    text: &[u8],
    limits: Limits,
) -> Opened
    ensures { OpensAtPlace
        rooms.now
        (capped limits.numbers limits.clauses)
        (open_editions both (capped limits.numbers limits.clauses) text.now)
        accounts.old
        cells.old
        literals.old
        place
        result
        accounts.new
        cells.new
        literals.new }
{
    if is_outside(place) {
        return Opened {
            refusal: Refusal::NoBook.number(),
            line: NO_LINE,
        };
    }
    let cells_at = rooms.cells_at(place, cells.len());
    let literals_at = rooms.literals_at(place, literals.len());
    let read = open(
        Editions::Both,
        text,
        limits,
        &mut cells[cells_at.from..cells_at.to],
        &mut literals[literals_at.from..literals_at.to],
    );
    accounts.seat(place, read.is_ok());
    Opened::from(read)
}

// The text of the book at a place. Nothing of its state is written, and no visit is made.
// stays (C): as `bullacetop_day_open`, with the table that is written
pub fn bullacetop_day_write(
    accounts: &Accounts,
    rooms: &Rooms,
    cells: &[u16],
    literals: &[i16],
    place: usize,
    table: &mut [u8],
) -> Written
    ensures { WritesAtPlace
        rooms.now
        (share_of
        accounts.now.total
        accounts.now.used
        place
        (booked accounts.now.books place))
        cells.now
        literals.now
        place
        (length table.old)
        result
        table.new }
{
    let at = match enter(accounts, rooms, place, cells.len(), literals.len()) {
        Ok(at) => at,
        Err(refusal) => {
            cover::clear(table);
            return Written {
                refusal: refusal.number(),
                length: 0,
            };
        }
    };
    bullacetop_book_write(
        &cells[at.cells.from..at.cells.to],
        &literals[at.literals.from..at.literals.to],
        table,
    )
}
